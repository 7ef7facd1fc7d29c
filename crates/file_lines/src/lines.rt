// The lines of the file, each read at its place. Values are judged when their line has ended.
ghost use Rattle.std.specs.Prelude.{◌≡◌};
ghost use Rattle.darts.specs.File.{kind_word};
ghost use Rattle.darts.specs.Kinds.{kind_is};
ghost use Rattle.darts.specs.Read.{flag_at, opening as openingOf, kernel_of_kind, kernel_at};
ghost use Rattle.file_lines.specs.Found.{scan_of};
ghost use Rattle.file_lines.specs.Lines.{opening_of, levels_at, kernel_of, pair_at, pair_of};

use crate::scan::{Scanned, byte_at, field, word};
use darts::{Kind, Refusal};

// The first two lines: F and D. F is a number, as document 01 gives it, over which the definition `from_flag` is.
#[derive(Clone, Copy, Debug, PartialEq, Eq)]
pub struct FirstLines {
    pub flag: usize,
    pub darts: usize,
}

// A line of a kernel: its kind, and how many operations it has.
#[derive(Clone, Copy, Debug, PartialEq, Eq)]
pub(crate) struct KernelLine {
    pub kind: Kind,
    pub count: usize,
}

// Byte nine: 0 for darts from zero, 1 for darts from one.
#[tactic(auto, using(crate::proofs::Byte::byte_inside), unfolding(darts::specs::Read::flag_at))]
fn flag(bytes: &[u8], at: usize) -> Scanned<usize>
    ensures { scan_of (λ x. x) result ≡ flag_at bytes.now at }
{
    match byte_at(bytes, at) {
        None => Err(Refusal::NoFile(at)),
        Some(b'0') => Ok((0, at + 1)),
        Some(b'1') => Ok((1, at + 1)),
        Some(_) => Err(Refusal::NoFlag),
    }
}

// The lines `numbers=F` and `darts=D`: F and D.
#[tactic(auto, unfolding(darts::specs::Read::opening))]
pub fn opening(bytes: &[u8]) -> Scanned<FirstLines>
    ensures { scan_of opening_of result ≡ openingOf bytes.now }
{
    let ninth = word(bytes, 0, b"numbers=")?;
    let (flag, end) = flag(bytes, ninth)?;
    let second = word(bytes, end, b"\n")?;
    let (darts, next) = field(bytes, second, b"darts=", b"\n")?;
    Ok((FirstLines { flag, darts }, next))
}

// The line `levels=L`: L, which is at most 64.
#[tactic(auto, unfolding(crate::specs::Lines::levels_at))]
pub fn levels_line(bytes: &[u8], at: usize) -> Scanned<usize>
    ensures { scan_of (λ x. x) result ≡ levels_at bytes.now at }
{
    let (levels, next) = field(bytes, at, b"levels=", b"\n")?;
    if 64 < levels {
        return Err(Refusal::TooManyLevels);
    }
    Ok((levels, next))
}

// The word of a kind, and a count of operations that is not 0.
#[tactic(auto, unfolding(darts::specs::Read::kernel_of_kind))]
fn count_of_kind(bytes: &[u8], at: usize, kind: Kind, w: &[u8]) -> Scanned<KernelLine>
    requires { w.now ≡ kind_word (kind_is kind) }
    ensures { scan_of kernel_of result ≡ kernel_of_kind (kind_is kind) bytes.now at }
{
    let (count, next) = field(bytes, at, w, b"\n")?;
    if count == 0 {
        return Err(Refusal::EmptyKernel);
    }
    Ok((KernelLine { kind, count }, next))
}

// A line `kernel=contract N` or `kernel=remove N`: the kind, and N.
#[tactic(auto, using(crate::proofs::Byte::byte_same, crate::proofs::Byte::byte_other), unfolding(darts::specs::Read::kernel_at, darts::specs::File::kind_word))]
pub(crate) fn kernel_line(bytes: &[u8], at: usize) -> Scanned<KernelLine>
    ensures { scan_of kernel_of result ≡ kernel_at bytes.now at }
{
    let kind = word(bytes, at, b"kernel=")?;
    if byte_at(bytes, kind) == Some(b'c') {
        return count_of_kind(bytes, kind, Kind::Contract, b"contract ");
    }
    count_of_kind(bytes, kind, Kind::Remove, b"remove ")
}

// A line `pair=A B`: A and B.
#[tactic(auto, unfolding(crate::specs::Lines::pair_at))]
pub(crate) fn pair_line(bytes: &[u8], at: usize) -> Scanned<(usize, usize)>
    ensures { scan_of pair_of result ≡ pair_at bytes.now at }
{
    let (a, second) = field(bytes, at, b"pair=", b" ")?;
    let (b, next) = field(bytes, second, b"", b"\n")?;
    Ok(((a, b), next))
}
