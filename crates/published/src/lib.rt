#![tactic(auto)]

// The published rules as a relation, and that the machine's steps are exactly theirs. There is no code here.
