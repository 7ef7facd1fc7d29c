// Checksums: "so that a number written outside what was lent shows".
ghost use Rattle.script.specs.Checks.{step_of, sum_of, numbers_of_metres, numbers_of_yarn};
ghost use Rattle.std.specs.Prelude.{◌≡◌, ◌<◌, ◌∷◌, [], ℕ, List, ◌++◌, Some, codes, decimal};

use sheets::Zone;
use std::fmt;
use std::num::f64_to_bits_with_nan;

// The checksums of the ends, the table, the history, the work area and the output.
#[derive(Clone, Copy, Debug, PartialEq, Eq)]
pub struct Sums {
    pub ends: u64,
    pub table: u64,
    pub history: u64,
    pub work: u64,
    pub output: u64,
}

// "ends=C table=C history=C work=C output=C"
impl fmt::Display for Sums {
    ghost output = { λ s. Some (codes "ends=" ++ decimal s.ends ++ codes " table=" ++ decimal s.table ++ codes " history=" ++ decimal s.history
        ++ codes " work=" ++ decimal s.work ++ codes " output=" ++ decimal s.output) };

    fn fmt<W: fmt::Write>(&self, f: &mut fmt::Formatter<W>) -> fmt::Result {
        let Sums {
            ends,
            table,
            history,
            work,
            output,
        } = *self;
        write!(
            f,
            "ends={ends} table={table} history={history} work={work} output={output}"
        )
    }
}

// The checksums of what `successor` was lent: the table, the edges' ends and the work area.
#[derive(Clone, Copy, Debug, PartialEq, Eq)]
pub struct FoundSums {
    pub table: u64,
    pub ends: u64,
    pub work: u64,
}

// "table=C ends=C work=C"
impl fmt::Display for FoundSums {
    ghost output = { λ s. Some (codes "table=" ++ decimal s.table ++ codes " ends=" ++ decimal s.ends ++ codes " work=" ++ decimal s.work) };

    fn fmt<W: fmt::Write>(&self, f: &mut fmt::Formatter<W>) -> fmt::Result {
        let FoundSums { table, ends, work } = *self;
        write!(f, "table={table} ends={ends} work={work}")
    }
}

// "for each number v: c := (c * 31 + v + 1) mod 4294967291"
fn step(c: u64, v: u32) -> u64
    requires { c < 4294967291 }
    ensures below { result < 4294967291 }
    ensures sum { result ≡ step_of c v }
{
    (c * 31 + v as u64 + 1) % 4294967291
}

// Three numbers, one after another.
fn step_figure(c: u64, kind: u32, high: u32, low: u32) -> u64
    requires { c < 4294967291 }
    ensures below { result < 4294967291 }
    ensures sum { result ≡ sum_of c (kind ∷ high ∷ low ∷ []) }
{
    step(step(step(c, kind), high), low)
}

// What a checksum is taken of.
pub trait Counted: Copy {
    // The numbers that it counts as.
    ghost numbers: { Self → List ℕ };

    // The checksum after one more, from that before it.
    fn after(self, c: u64) -> u64
        requires { c < 4294967291 }
        ensures below { result < 4294967291 }
        ensures sum { result ≡ sum_of c (numbers self) };
}

impl Counted for u32 {
    ghost numbers = { λ v. v ∷ [] };

    fn after(self, c: u64) -> u64 {
        step(c, self)
    }
}

impl Counted for u8 {
    ghost numbers = { λ v. v ∷ [] };

    fn after(self, c: u64) -> u64 {
        step(c, self as u32)
    }
}

// Metres by their bits, "1, the high 32 bits and the low 32 bits", or "2 0 0 for a NaN".
impl Counted for f64 {
    ghost numbers = { numbers_of_metres };

    fn after(self, c: u64) -> u64 {
        if self.is_nan() {
            return step_figure(c, 2, 0, 0);
        }
        let bits = f64_to_bits_with_nan(self);
        step_figure(c, 1, (bits >> 32) as u32, (bits & 0xffff_ffff) as u32)
    }
}

// A record "counts as four numbers, its stitches, then 0 0 0 for not measured", or what its metres are.
impl Counted for Zone {
    ghost numbers = { λ z. z.stitches ∷ numbers_of_yarn z.yarn };

    fn after(self, c: u64) -> u64 {
        let after = step(c, self.stitches);
        match self.yarn {
            Some(m) => m.after(after),
            None => step_figure(after, 0, 0, 0),
        }
    }
}

// The checksum of numbers, bytes or records.
pub fn sum<T: Counted>(all: &[T]) -> u64 {
    let mut c = 0;
    for v in all {
        c = v.after(c);
    }
    c
}
