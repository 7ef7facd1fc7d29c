// What program `zones` knows of text: the lines of a script, what they put into a room, the checksums, what is printed of a list and of sums, and which
// darts `costs` shows as one zone. Nothing here knows of a state.
#![tactic(auto)]

pub mod costs;
pub mod joining;
pub mod laying;
pub mod prints;
pub mod scan;
pub mod sums;
pub mod words;
