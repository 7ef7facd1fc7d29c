// The call that reads the file of document 01.
// What a call is lent goes one by one: document 01, "the table and history are lent slices", and so C has it.
#![tactic(auto)]

mod reading;

pub use reading::read;
