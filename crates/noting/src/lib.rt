// What each operation merges, and what each record came from, noted in the work area (document 02, request Five).
// The work area and its d are lent side by side, as in `area`, where the reason stands.
#![tactic(auto)]

pub mod check;
mod note;
mod replay;
pub mod run;
pub mod starting;
