// The bytes of the known answers: patterns that can be made again, and parts whose length stands in the slice.
#![tactic(auto)]

pub mod pattern;
pub mod place;
