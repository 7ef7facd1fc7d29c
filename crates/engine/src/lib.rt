// What a call does in the work area, in the words of the definitions: check, run, sweep, take back, store.
// The work area and its d are lent side by side, as in `area`, where the reason stands.
#![tactic(auto)]

pub mod base;
pub mod check;
pub mod kernel;
pub mod store;
pub mod sweep;
pub mod undo;

// How many vertices and how many faces there are.
#[derive(Clone, Copy, Debug, PartialEq, Eq)]
pub struct Cycles {
    pub vertices: usize,
    pub faces: usize,
}
