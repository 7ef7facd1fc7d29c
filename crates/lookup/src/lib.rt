// The successor of a dart at a level, without unfolding: it is looked up in the base table and the ends of the edges.
// The work area and its d are lent side by side, as in `area`, where the reason stands.
// What a call is lent goes one by one: document 01, "the table and history are lent slices", and so C has it.
#![tactic(auto)]

mod calls;
mod deciding;
mod levels;
mod passes;
mod walking;

pub use calls::successor_at;
pub use darts::Refusal;

// A dart, and how many gone darts were passed on the way to it.
#[derive(Clone, Copy, Debug, PartialEq, Eq)]
pub struct Followed {
    pub dart: u32,
    pub passed: u32,
}
