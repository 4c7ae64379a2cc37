#![tactic(auto)]

// Lists of steps: what holds of every list. There is no code here.
