#![tactic(auto)]

// What holds of every table and of every contract that fits: the round trip, that an encoded table passes, and that a table
// that passes holds a contract that fits. There is no code here.
