// The pairing of darts, edge e having darts 2e and 2e+1, the refusals, and the two kinds. The definitions of document 01 stand in specs/.
#![tactic(auto)]

pub mod answers;
pub mod kinds;

ghost use Rattle.std.specs.Prelude.{◌≡◌, ◌<◌};
ghost use Rattle.permutations.specs.Partner.{partner as partnerOf};

// A case for each refusal, with its place where it has one, and a second place where it has two.
#[derive(Clone, Copy, Debug, PartialEq, Eq)]
pub enum Refusal {
    NoDartCount,
    TooShort(usize),
    NoPermutation(usize, usize),
    NoPyramid,
    EmptyKernel,
    TooManyLevels,
    NoEdge(usize),
    GoneAlready(usize),
    OneVertex(usize),
    OneFace(usize),
    WholePiece(usize),
    NoLevel(usize),
    NoFile(usize),
    NoFlag,
    NoPlanSize,
    UnfitRecord(usize),
}

// The kind of a kernel and of an operation, "given as one of two values, so that there is no third".
#[derive(Clone, Copy, Debug, PartialEq, Eq)]
pub enum Kind {
    Contract,
    Remove,
}

// The other dart of d's edge, by equation 13 of paper 001 moved to zero: one more for an even dart, one less for an odd one.
pub fn partner(d: usize) -> usize
    requires { d < 65536 }
    ensures { result ≡ partnerOf d }
{
    match d % 2 {
        0 => d + 1,
        _ => d - 1,
    }
}
