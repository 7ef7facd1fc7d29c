// The levels that the ends tell: the top, and whether they are in the form of a pyramid's.
ghost use Rattle.std.specs.Prelude.{◌≡◌, ◌<◌, length};
ghost use Rattle.ends.specs.Ends.{top as top_of, one_kind, shaped};
ghost use Rattle.lookup.specs.Firsts.{Unset, Firsts, used_in};

// The highest level among the ends. It stays in 32 bits, of which a processor compares several at a time.
pub(crate) fn top(ends: &[u32]) -> usize
    ensures { result ≡ top_of ends.now }
{
    ends.iter().map(|end| *end / 2).max().unwrap_or(0) as usize
}

// The first end of each level is noted at its level: from the last edge on, so that the first one stays.
fn note(first: &mut [u32], ends: &[u32])
    requires ends_in_bounds { top_of ends.now < length first.old }
    requires unset { Unset first.old }
    ensures { Firsts ends.now first.new }
{
    for end in ends.iter().rev() {
        first[(*end / 2) as usize] = *end;
    }
}

// Whether an end is noted at each level from 1 to n.
fn in_use(first: &[u32], n: usize) -> bool
    requires { n < length first.now }
    ensures { result ≡ used_in first.now n }
{
    (1..=n).all(|level| first[level] != 0)
}

// Whether each end has the kind of the first one of its level.
fn one_kind(first: &[u32], ends: &[u32]) -> bool
    requires ends_in_bounds { top_of ends.now < length first.now }
    requires firsts { Firsts ends.now first.now }
    ensures { result ≡ one_kind ends.now ends.now }
{
    ends.iter()
        .all(|end| *end < 2 || first[(*end / 2) as usize] == *end)
}

// Whether the levels are in the form of a pyramid's: at most 64, each in use, one kind in each.
pub(crate) fn shape(ends: &[u32]) -> bool
    ensures { result ≡ shaped ends.now }
{
    let high = top(ends);
    if 64 < high {
        return false;
    }
    let mut first = [0u32; 65];
    note(&mut first, ends);
    in_use(&first, high) && one_kind(&first, ends)
}
