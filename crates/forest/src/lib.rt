// Which numbers belong together, kept in a lent slice: each number has a parent, which is never above it, and a root is its own parent.
// Two numbers belong together where they have the same root.
#![tactic(auto)]

ghost use Rattle.std.specs.Prelude.{◌≤◌, ◌<◌, ◌^◌, length};
ghost use Rattle.forest.specs.Forest.{Stands, Top, Found, Joined, Fresh};

// Every number becomes its own root.
pub fn fresh(forest: &mut [u32])
    requires { length forest.old ≤ 2 ^ 32 }
    ensures { Fresh (length forest.old) forest.new }
{
    for (i, parent) in forest.iter_mut().enumerate() {
        *parent = i as u32;
    }
}

// The root of x. On the way up each number that is passed is hung under its grandparent, so that the next way is half as long.
pub fn find(forest: &mut [u32], x: usize) -> usize
    requires { Stands forest.old x }
    ensures { Found forest.old forest.new x result }
{
    let mut at = x;
    let mut up = forest[at];
    while up as usize != at {
        let over = forest[up as usize];
        forest[at] = over;
        at = over as usize;
        up = forest[at];
    }
    at
}

// Joins what belongs to the root u with what belongs to the root v: the higher root is hung under the lower. Answers whether they are two.
pub fn link(forest: &mut [u32], u: usize, v: usize) -> bool
    requires top { Top forest.old u × Top forest.old v }
    requires u_bound { (u < 2 ^ 32) × (v < 2 ^ 32) }
    ensures { Joined forest.old forest.new u v result }
{
    if u == v {
        return false;
    }
    if u < v {
        forest[v] = u as u32;
    } else {
        forest[u] = v as u32;
    }
    true
}

// Joins what belongs to x with what belongs to y. Answers whether they were apart.
pub fn join(forest: &mut [u32], x: usize, y: usize) -> bool
    requires { Stands forest.old x × Stands forest.old y }
    ensures { Joined forest.old forest.new x y result }
{
    let u = find(forest, x);
    let v = find(forest, y);
    link(forest, u, v)
}
