// The lines of the file of document 01: words and numbers, each line at its place, and the loops over the kernels and the pairs.
#![tactic(auto)]

pub mod kernels;
pub mod lines;
pub mod pairs;
pub mod scan;
