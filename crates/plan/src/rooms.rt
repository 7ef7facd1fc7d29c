// The rooms for a plan of 128 wales and 128 courses. It has 32,512 edges, 65,024 darts.
#[derive(Drop)]
pub struct Rooms {
    // A drawing in form has no more cells than bytes.
    pub plan: [u8; 65536],
    pub table: [u32; 65024],
    pub history: [u32; 32512],
    pub work: [u32; 260096],
    // The file has at most 10 + 12 + 9 bytes in its first three lines, 22 in the line of its one kernel, and 17 in each line of its 32,512 pairs.
    pub output: [u8; 552757],
}
