// The numbers of vertices and faces that the state stores: right ones after each call, and wrong ones, which are refused.
use crate::chain::Run;
use crate::examples::{K5, K7, T};
use pyramid::Kind;

// The numbers given back: K7 unfolded to the base has the base's. Numbers put in a state that are those of its cycles are right, and the sweep keeps them so.
pub fn right_numbers() {
    let zones = Run::start(8, T).reduce(Kind::Contract, &[0, 1]);
    zones
        .sweep()
        .unfold(0)
        .expect((0, 0, 0), T, [1, 5, 10, 0], (4, 2));
    zones
        .store(2, 2)
        .sweep()
        .expect((0, 0, 0), K7, [1, 5, 10, 0], (2, 1));
}

// A state with one vertex too many, and one with a vertex for a face: no pyramid, to a kernel, the sweep, undo and unfold.
pub fn wrong_numbers() {
    let vertex_more = Run::start(8, T).store(5, 2);
    vertex_more
        .reduce(Kind::Contract, &[3])
        .expect((4, 0, 0), T, [0, 0, 0, 0], (5, 2));
    vertex_more
        .sweep()
        .expect((4, 0, 0), T, [0, 0, 0, 0], (5, 2));
    let vertex_for_face = Run::start(8, T).reduce(Kind::Contract, &[0, 1]).store(3, 1);
    vertex_for_face
        .undo()
        .expect((4, 0, 0), K5, [1, 5, 0, 0], (3, 1));
    vertex_for_face
        .unfold(0)
        .expect((4, 0, 0), K5, [1, 5, 0, 0], (3, 1));
}
