// The C boundary: thin functions under the names of include/rvghash.h.
#![tactic(auto)]

pub mod field_calls;
pub mod hash_calls;
pub mod link_calls;
pub mod running_calls;
pub mod trace_calls;
pub mod vector_calls;
pub mod word_calls;
