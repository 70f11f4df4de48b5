// Answers written to a lent `out`, and the calls on a running hash that is lent.
#![tactic(auto)]

pub mod out;
pub mod running;
