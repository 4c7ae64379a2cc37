#![tactic(auto)]

// The grammar as a relation between trees and tokens, and that reading accepts exactly what it derives. There is no code here.
