// The executor of the eight words, over the decoder, the elements and the field's products.
#![tactic(auto)]

pub mod execute;
