// What the known answers are compared and counted with: each has its statement, so that a line of the program says what it seems to say.
#![tactic(auto)]

pub mod compare;
pub mod tally;
