// Examples of the rules of traces, for readers. There is no code here: no edit of the code below checks them again.
#![tactic(auto)]
