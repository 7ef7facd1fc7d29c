// The work area's map: a step round it, and a dart led to another.
ghost use Rattle.std.specs.Prelude.{◌≡◌, ◌<◌};
ghost use Rattle.darts.specs.Kinds.{bit};
ghost use Rattle.area.specs.Area.{Room, bound, around as around_of};

use darts::Kind;
use slices::at;

// The dart after x: round its face for removals, and round its vertex for contractions.
#[tactic(auto, using(permutations::proofs::PartnerLemmas::partner_below), unfolding(area::specs::Area::around, darts::specs::Map::successor))]
pub(crate) fn around(work: &[u32], d: usize, kind: Kind, x: usize) -> usize
    requires room { Room d work.now }
    requires x_lt_d { x < d }
    ensures { result ≡ around_of (bit kind) work.now x }
{
    match kind {
        Kind::Contract => at(work, x),
        Kind::Remove => at(work, darts::partner(x)),
    }
}

// Dart a leads to x, and a is the dart before x.
#[tactic(auto, unfolding(area::specs::Area::bound))]
pub(crate) fn bind(work: &mut [u32], d: usize, a: usize, x: usize)
    requires room { Room d work.old }
    requires a_lt_d { (a < d) × (x < d) }
    ensures { work.new ≡ bound d work.old a x }
{
    work[a] = x as u32;
    work[d + x] = a as u32;
}
