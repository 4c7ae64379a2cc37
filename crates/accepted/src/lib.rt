#![tactic(auto)]

// What an accepted text gives: a contract that fits, whose table passes question 3 and gives it back. Theorems over `reading`, without code.
