// What parking means, for readers: theorems on records and on runs with restarts, and examples. There is no code here: no edit of the code
// below checks them again.
#![tactic(auto)]
