#![tactic(auto)]

// Reading as one pass, the model that the code follows, and that it reads what is defined. There is no code here.
