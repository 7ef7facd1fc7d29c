// The work area: table and history in it, tested, the shape of a state over them, and all of it cleared.
// Function by function, each contract is the same computation on lists.
// d stands beside the lent work area, with `Room`: tried as a struct of the two, each contract that writes must say that it holds the same slice still, which is
// more than `Room` and no plainer.
#![tactic(auto)]

pub mod clear;
pub mod load;
pub mod shape;

// The numbers of a state, in the width of the work area: D, the operations, the levels, and the operation count after each level. The state itself is of
// `pyramid`, whose methods the calls are.
#[derive(Clone, Copy, Debug, PartialEq, Eq)]
pub struct Figures {
    pub darts: usize,
    pub operations: usize,
    pub levels: usize,
    // 64, with their number beside them: the state's numbers, as the C interface has them
    pub ends: [u32; 64],
}

// Why the permutation test refuses a table: the lowest bad dart, and the second culprit beside it.
#[derive(Clone, Copy, Debug, PartialEq, Eq)]
pub struct Culprits {
    pub dart: usize,
    pub beside: usize,
}
