// The calls for C (include/zonemap.h): each takes the state, where it is given one, from its 69 numbers, makes the call, and puts back what it hands back.
// What a call is lent goes one by one: document 01, "the table and history are lent slices", and so C has it.
#![tactic(auto)]

pub mod bytes;
pub mod calls;
pub mod plan;
mod state;
pub mod successor;
