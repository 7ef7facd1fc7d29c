// Operations in the work area: judged, done and taken back, with the forest that tells vertices and faces apart.
// Function by function, each contract is the same computation on lists.
// The work area and its d are lent side by side, as in `area`, where the reason stands.
#![tactic(auto)]

pub mod back;
pub mod cycles;
pub mod operate;
mod step;
pub mod trees;
