// What the programs of known answers read and write with: a file of data/, and a line for each group of cases.
#![tactic(auto)]

pub mod data_file;
pub mod report;
