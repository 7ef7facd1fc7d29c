// The base of a stitch plan, and the base with its first kernel (document 02, request One).
// The work area and its d are lent side by side, as in `area`, where the reason stands.
// What a call is lent goes one by one: document 01, "the table and history are lent slices", and so C has it.
#![tactic(auto)]

mod calls;
mod first;
mod laying;
mod sizes;

pub use calls::{plan, plan_areas};
