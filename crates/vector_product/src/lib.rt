// Carry-less products, of 64-bit numbers and of their pieces.
#![tactic(auto)]

pub mod clmul;
pub mod pieces;
