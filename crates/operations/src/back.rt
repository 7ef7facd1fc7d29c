// Operations taken back in the work area, the last one first: tests 6 to 15 of a pyramid.
ghost use Rattle.std.specs.Prelude.{◌≡◌, true, ◌≤◌, ◌<◌, ◌*◌};
ghost use Rattle.darts.specs.Kinds.{kind_is};
ghost use Rattle.darts.specs.Tests.{near as nearOf};
ghost use Rattle.area.specs.Area.{Room, tried};
ghost use Rattle.operations.specs.Back.{Inside, fitting, inserted, placed, tried_edge, tried_back, backs, Mapped, Sound};

use crate::step::bind;
use darts::{Kind, partner};
use slices::at;

// Of two darts the near one for a kind: a for a removal, and b for a contraction.
#[tactic(auto, unfolding(darts::specs::Tests::near))]
pub(crate) fn near(kind: Kind, a: usize, b: usize) -> usize
    ensures { result ≡ nearOf (kind_is kind) a b }
{
    match kind {
        Kind::Contract => b,
        Kind::Remove => a,
    }
}

// Tests 6 to 15: whether p and q can come back before x and y, or both before y where x is q.
#[tactic(auto, unfolding(area::specs::Area::there, area::specs::Area::prev))]
fn fit(work: &[u32], d: usize, p: usize, q: usize, x: usize, y: usize) -> bool
    requires room { Room d work.now }
    requires x_lt_d { (x < d) × (y < d) }
    ensures { result ≡ fitting d work.now p q x y }
{
    if x == q {
        return at(work, d + y) < d;
    }
    p % 2 == 0 && at(work, d + x) < d && at(work, d + y) < d && x != y
}

// The darts p and q of an edge, and where they lead: p to r, q to s.
#[derive(Clone, Copy)]
struct Edge {
    p: usize,
    q: usize,
    r: usize,
    s: usize,
}

// Dart a leads to p and b to q, p leads to r and q to s.
#[tactic(auto, unfolding(crate::specs::Back::inserted))]
fn insert(work: &mut [u32], d: usize, edge: Edge, a: usize, b: usize)
    requires room { Room d work.old }
    requires edge_inside { Inside d edge }
    requires a_lt_d { (a < d) × (b < d) }
    ensures { work.new ≡ inserted d work.old edge.p edge.q edge.r edge.s a b }
{
    bind(work, d, a, edge.p);
    bind(work, d, b, edge.q);
    bind(work, d, edge.p, edge.r);
    bind(work, d, edge.q, edge.s);
}

// Darts p and q come back before x and y, or both before y where x is q.
#[tactic(auto, unfolding(area::specs::Area::prev))]
fn place(work: &mut [u32], d: usize, kind: Kind, edge: Edge, x: usize, y: usize)
    requires room { Room d work.old }
    requires edge_inside { Inside d edge }
    requires x_lt_d { (x < d) × (y < d) }
    requires y_value { fitting d work.old edge.p edge.q x y ≡ true }
    ensures { work.new ≡ placed d work.old (kind_is kind) edge.p edge.q edge.r edge.s x y }
{
    let b = at(work, d + y);
    if x == edge.q {
        let e = near(kind, edge.p, edge.q);
        insert(work, d, edge, b, e);
    } else {
        let a = at(work, d + x);
        insert(work, d, edge, a, b);
    }
}

// Darts p and q come back where they fit.
fn take_back_edge(work: &mut [u32], d: usize, kind: Kind, edge: Edge) -> bool
    requires room { Room d work.old }
    requires edge_inside { Inside d edge }
    ensures { tried result work.new ≡ tried_edge d work.old (kind_is kind) edge.p edge.q edge.r edge.s }
{
    let x = near(kind, edge.r, edge.s);
    let y = near(kind, edge.s, edge.r);
    if fit(work, d, edge.p, edge.q, x, y) {
        place(work, d, kind, edge, x, y);
        return true;
    }
    false
}

// The operation h is taken back where it passes tests 6 to 15.
fn take_back(work: &mut [u32], d: usize, h: usize) -> bool
    requires mapped { Mapped d work.old }
    requires h_bound { h < 2 * d }
    ensures { tried result work.new ≡ tried_back d work.old h }
{
    let p = h / 2;
    let q = partner(p);
    let r = at(work, p);
    let s = at(work, q);
    take_back_edge(work, d, Kind::from(h), Edge { p, q, r, s })
}

// The last c of n operations are taken back, the last one first. No where one does not fit.
pub fn take_back_last(work: &mut [u32], d: usize, n: usize, c: usize) -> bool
    requires sound { Sound d n work.old }
    requires c_le_n { c ≤ n }
    ensures { tried result work.new ≡ backs d work.old n c }
{
    for left in (n - c..n).rev() {
        let h = at(work, 3 * d + left);
        if !take_back(work, d, h) {
            return false;
        }
    }
    true
}
