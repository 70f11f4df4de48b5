// Where the elements of a register group lie, and their mask bits.
#![tactic(auto)]

pub mod element;
