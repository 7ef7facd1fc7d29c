// The calls on a state: start, reduce, sweep, undo, unfold, counts; all but the last once more with sheets of records.
// What a call is lent goes one by one: document 01, "the table and history are lent slices", and so C has it.
#![tactic(auto)]

mod checking;
mod counting;
mod judging;
mod judging_with;
mod numbers;
mod reducing;
mod settling;
mod sizes;
pub mod starting;
pub mod starting_with;
mod sweeping;
mod undoing;
mod with_sheets;

pub use darts::{Kind, Refusal};
pub use starting::start;
pub use starting_with::start_with;

// D, the number of operations, the number of levels, the numbers of vertices and faces of the present level, and the operation count after each kernel,
// zero past the last level.
#[repr(C)]
#[derive(Clone, Copy, Debug, PartialEq, Eq)]
pub struct State {
    pub darts: u32,
    pub operations: u32,
    pub levels: u32,
    pub vertices: u32,
    pub faces: u32,
    pub ends: [u32; 64],
}

// What a call on a state hands back: done or refused, and the state either way. "A refused call hands back the state it was given", so that no Result of a
// state says it.
#[derive(Clone, Copy, Debug, PartialEq, Eq)]
pub struct Outcome {
    pub state: State,
    pub answer: Result<(), Refusal>,
}

// Surviving darts, vertices, faces, and vertices minus edges plus faces.
#[derive(Clone, Copy, Debug, PartialEq, Eq)]
pub struct Counts {
    pub darts: u32,
    pub vertices: u32,
    pub faces: u32,
    pub euler: i32,
}
