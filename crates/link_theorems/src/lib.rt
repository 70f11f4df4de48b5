// What the answers on links mean, for readers: theorems, and examples. There is no code here: no edit of the code below checks them again.
#![tactic(auto)]
