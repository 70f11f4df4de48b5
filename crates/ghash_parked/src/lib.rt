// A running hash parked as a record of bytes, and read back: document 02, Ask 6.
#![tactic(auto)]

pub mod layout;
pub mod park;
