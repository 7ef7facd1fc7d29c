// The records of a sheet, by value, and sheets of them, lent as slices of structs.
#![tactic(auto)]

pub mod loops;
pub mod record;
pub mod thin;

// What is kept for a zone: its stitches, and its metres of yarn, or none where it was not measured.
#[derive(Clone, Copy)]
pub struct Zone {
    pub stitches: u32,
    pub yarn: Option<f64>,
}
