// The elements of the GHASH field: blocks and keys; and the block that an answer gives.
#![tactic(auto)]

pub mod answer;
pub mod block;
