// The call that writes the file of document 01: the file's numbers for the darts, its lines, and the whole.
// The work area and its d are lent side by side, as in `area`, where the reason stands.
// What a call is lent goes one by one: document 01, "the table and history are lent slices", and so C has it.
#![tactic(auto)]

mod file;
mod numbering;
mod print;
mod writing;

pub use writing::write;
