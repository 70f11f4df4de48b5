// The inverse of a key by division, and the step back.
#![tactic(auto)]

pub mod inverse;
pub mod step_back;
