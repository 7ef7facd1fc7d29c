// The forest's part of the work area, lent to the forest's own functions.
ghost use Rattle.std.specs.Prelude.{◌≡◌, ◌<◌};
ghost use Rattle.forest.specs.Forest.{Falls};
ghost use Rattle.area.specs.Area.{Room, forest_in};
ghost use Rattle.operations.specs.Trees.{rooted, Found, Joined};

// The root of x.
pub fn find(work: &mut [u32], d: usize, x: usize) -> usize
    requires room { Room d work.old }
    requires falls { Falls (forest_in d work.old) }
    requires x_lt_d { x < d }
    ensures { Found d work.old work.new x result }
{
    forest::find(&mut work[2 * d..3 * d], x)
}

// Joins what belongs to p with what belongs to q. Answers whether they were apart.
pub fn join(work: &mut [u32], d: usize, p: usize, q: usize) -> bool
    requires room { Room d work.old }
    requires falls { Falls (forest_in d work.old) }
    requires p_lt_d { (p < d) × (q < d) }
    ensures { Joined d work.old work.new p q result }
{
    forest::join(&mut work[2 * d..3 * d], p, q)
}

// The same of two roots: the higher is hung under the lower.
pub fn link(work: &mut [u32], d: usize, u: usize, v: usize) -> bool
    requires room { Room d work.old }
    requires falls { Falls (forest_in d work.old) }
    requires u_lt_d { (u < d) × (v < d) }
    requires u_value { (rooted d work.old u ≡ u) × (rooted d work.old v ≡ v) }
    ensures { Joined d work.old work.new u v result }
{
    forest::link(&mut work[2 * d..3 * d], u, v)
}
