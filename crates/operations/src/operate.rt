// One operation in the work area: judged, and done.
ghost use Rattle.std.specs.Prelude.{◌≡◌, ◌+◌, ◌-◌, ◌*◌, ◌/◌, ◌<◌, length};
ghost use Rattle.permutations.specs.Partner.{partner};
ghost use Rattle.darts.specs.Kinds.{kind_is, bit};
ghost use Rattle.darts.specs.Operation.{whole_edge, lead as leadDart};
ghost use Rattle.darts.specs.Answers.{answered};
ghost use Rattle.darts.specs.Cases.{refusal_of};
ghost use Rattle.forest.specs.Forest.{Falls};
ghost use Rattle.area.specs.Area.{Room, forest_in};
ghost use Rattle.operations.specs.Operate.{takes_in, led, noted, operated};
ghost use Rattle.operations.specs.Edge.{Judged, Bounds, bypassed};
ghost use Rattle.operations.specs.Trees.{rooted};

use crate::back::near;
use crate::step::bind;
use crate::trees::{find, link};
use darts::{Kind, Refusal};
use slices::at;

// Whether edge e is a whole piece.
#[tactic(auto, unfolding(darts::specs::Operation::whole_edge, darts::specs::Map::successor))]
fn whole(work: &[u32], e: usize) -> bool
    requires { 2 * e + 1 < length work.now }
    ensures { result ≡ whole_edge work.now e }
{
    let p = 2 * e;
    let q = 2 * e + 1;
    let r = at(work, p);
    let s = at(work, q);
    (r == p && s == q) || (r == q && s == p)
}

// Whether the sweep takes edge e: it survives, and is an empty loop and no whole piece, so that r = q or s = p, but not both.
pub fn takes(work: &[u32], d: usize, e: usize) -> bool
    requires room { Room d work.now }
    requires e_bound { e < d / 2 }
    ensures { result ≡ takes_in d work.now e }
{
    let p = 2 * e;
    let q = 2 * e + 1;
    if d <= at(work, d + p) {
        return false;
    }
    let r = at(work, p);
    let s = at(work, q);
    (r == q) != (s == p)
}

// The refusal of an edge at place i with one vertex at both ends, or one face on both sides.
fn shared(kind: Kind, i: usize) -> Refusal
    ensures { refusal_of result ≡ answered (10 - bit kind) i }
{
    match kind {
        Kind::Contract => Refusal::OneVertex(i),
        Kind::Remove => Refusal::OneFace(i),
    }
}

// The answer for edge e at its turn, the one at place i of a kernel: the forest tells vertices for a contraction, and faces for a removal, and a and
// b are the roots of the edge's two darts. Where it is done, the two are joined, so that the forest tells vertices or faces as they are once the edge is gone.
pub fn judge_found(
    work: &mut [u32],
    d: usize,
    kind: Kind,
    e: usize,
    i: usize,
    a: usize,
    b: usize,
) -> Result<(), Refusal>
    requires room { Room d work.old }
    requires falls { Falls (forest_in d work.old) }
    requires e_bound { e < d / 2 }
    requires a_value { (a ≡ rooted d work.old (2 * e)) × (b ≡ rooted d work.old (2 * e + 1)) }
    ensures { Judged d (bit kind) e i work.old work.new result }
{
    if d <= at(work, d + 2 * e) {
        return Err(Refusal::GoneAlready(i));
    }
    if whole(work, e) {
        if a == b {
            return Err(shared(kind, i));
        }
        return Err(Refusal::WholePiece(i));
    }
    if link(work, d, a, b) {
        return Ok(());
    }
    Err(shared(kind, i))
}

// The same of any number e, whose two roots are found first.
pub fn judge(work: &mut [u32], d: usize, kind: Kind, e: usize, i: usize) -> Result<(), Refusal>
    requires room { Room d work.old }
    requires falls { Falls (forest_in d work.old) }
    ensures { Judged d (bit kind) e i work.old work.new result }
{
    if d / 2 <= e {
        return Err(Refusal::NoEdge(i));
    }
    let a = find(work, d, 2 * e);
    let b = find(work, d, 2 * e + 1);
    judge_found(work, d, kind, e, i, a, b)
}

// The dart that plays p: the edge's first dart, or its second where the operation turns round.
#[tactic(auto, unfolding(darts::specs::Operation::lead, darts::specs::Operation::turned, darts::specs::Map::successor, darts::specs::Tests::near))]
fn lead(work: &[u32], kind: Kind, e: usize) -> usize
    requires { 2 * e + 1 < length work.now }
    ensures { result ≡ leadDart (kind_is kind) work.now e }
{
    let p = 2 * e;
    let q = 2 * e + 1;
    let r = at(work, p);
    let s = at(work, q);
    if near(kind, s, r) == p {
        return q;
    }
    p
}

// Dart a leads on to x and b to y; where x is q itself, which goes too, a leads on to y and nothing else changes.
#[tactic(auto, unfolding(crate::specs::Edge::bypassed))]
fn bypass(work: &mut [u32], d: usize, a: usize, b: usize, q: usize, x: usize, y: usize)
    requires room { Room d work.old }
    requires a_lt_d { (a < d) × (b < d) × (x < d) × (y < d) }
    ensures { work.new ≡ bypassed d work.old a b q x y }
{
    if x == q {
        bind(work, d, a, y);
    } else {
        bind(work, d, a, x);
        bind(work, d, b, y);
    }
}

// The darts before p and q lead on, to the near one and the far one of the successors r of p and s of q.
fn lead_on(work: &mut [u32], d: usize, kind: Kind, p: usize, q: usize)
    requires room { Room d work.old }
    requires bounds { Bounds d work.old p q }
    requires q_value { q ≡ partner p }
    ensures { work.new ≡ led d work.old (kind_is kind) p }
{
    let r = at(work, p);
    let s = at(work, q);
    let a = at(work, d + p);
    let b = at(work, d + q);
    let x = near(kind, r, s);
    let y = near(kind, s, r);
    bypass(work, d, a, b, q, x, y);
}

// The edge's darts are marked as gone, and the history gets the operation's number.
#[tactic(auto, unfolding(crate::specs::Operate::noted))]
fn note(work: &mut [u32], d: usize, n: usize, kind: Kind, p: usize, q: usize)
    requires room { Room d work.old }
    requires n_lt_d { (n < d) × (p < d) × (q < d) }
    requires q_value { q ≡ partner p }
    ensures { work.new ≡ noted d n work.old (bit kind) p }
{
    work[d + p] = d as u32;
    work[d + q] = d as u32;
    work[3 * d + n] = (2 * p + kind.bit()) as u32;
}

// The operation on edge e, the one of count n.
pub fn operate(work: &mut [u32], d: usize, n: usize, kind: Kind, e: usize)
    requires room { Room d work.old }
    requires n_bound { n < d / 2 }
    requires bounds { Bounds d work.old (2 * e) (2 * e + 1) }
    ensures { work.new ≡ operated d n work.old (bit kind) e }
{
    let p = lead(work, kind, e);
    let q = darts::partner(p);
    lead_on(work, d, kind, p, q);
    note(work, d, n, kind, p, q);
}
