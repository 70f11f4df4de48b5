// The settings of a call.
#![tactic(auto)]

pub mod settings;
