// The rules' number and places of a refusal, and what is judged before all else.
ghost use Rattle.std.specs.Prelude.{◌≡◌};
ghost use Rattle.darts.specs.Calls.{fitting};
ghost use Rattle.darts.specs.Cases.{answer_of, refusal_of};

use crate::Refusal;
use std::error::Error;
use std::fmt;

impl Refusal {
    // The number.
    pub fn number(self) -> u32
        ensures { result ≡ (refusal_of self).number }
    {
        match self {
            Refusal::NoDartCount => 1,
            Refusal::TooShort(_) => 2,
            Refusal::NoPermutation(_, _) => 3,
            Refusal::NoPyramid => 4,
            Refusal::EmptyKernel => 5,
            Refusal::TooManyLevels => 6,
            Refusal::NoEdge(_) => 7,
            Refusal::GoneAlready(_) => 8,
            Refusal::OneVertex(_) => 9,
            Refusal::OneFace(_) => 10,
            Refusal::WholePiece(_) => 11,
            Refusal::NoLevel(_) => 12,
            Refusal::NoFile(_) => 13,
            Refusal::NoFlag => 14,
            Refusal::NoPlanSize => 15,
            Refusal::UnfitRecord(_) => 16,
        }
    }

    // The place.
    pub fn place(self) -> usize
        ensures { result ≡ (refusal_of self).place }
    {
        match self {
            Refusal::TooShort(at)
            | Refusal::NoPermutation(at, _)
            | Refusal::NoEdge(at)
            | Refusal::GoneAlready(at)
            | Refusal::OneVertex(at)
            | Refusal::OneFace(at)
            | Refusal::WholePiece(at)
            | Refusal::NoLevel(at)
            | Refusal::NoFile(at)
            | Refusal::UnfitRecord(at) => at,
            Refusal::NoFlag => 8,
            Refusal::NoDartCount
            | Refusal::NoPyramid
            | Refusal::EmptyKernel
            | Refusal::TooManyLevels
            | Refusal::NoPlanSize => 0,
        }
    }

    // The second place, which only a table that is no permutation has.
    pub fn second(self) -> usize
        ensures { result ≡ (refusal_of self).second }
    {
        match self {
            Refusal::NoPermutation(_, beside) => beside,
            _ => 0,
        }
    }
}

// The line of a refused file or plan.
impl fmt::Display for Refusal {
    fn fmt<W: fmt::Write>(&self, f: &mut fmt::Formatter<W>) -> fmt::Result {
        write!(f, "refusal={} place={}", self.number(), self.place())
    }
}

impl Error for Refusal {}

// Answers 1 and 2, which every call judges first: the number of darts, then the lengths of what is lent.
pub fn fit(darts: u32, table: usize, history: usize, work: usize) -> Result<(), Refusal>
    ensures { answer_of result ≡ fitting darts table history work }
{
    if darts == 0 || darts % 2 != 0 || 65536 < darts {
        return Err(Refusal::NoDartCount);
    }
    let d = darts as usize;
    if table < d || history < d / 2 || work < 4 * d {
        return Err(Refusal::TooShort(0));
    }
    Ok(())
}
