// The worked examples, each from its own base.
use crate::chain::Run;
use pyramid::Kind;

// Map T, and the tables of K3, K5 and K7.
pub(crate) const T: [u32; 8] = [5, 2, 1, 4, 6, 0, 3, 7];

const K3: [u32; 8] = [5, 2, 1, 4, 3, 0, 3, 7];

pub(crate) const K5: [u32; 8] = [5, 2, 5, 4, 6, 4, 5, 7];

pub(crate) const K7: [u32; 8] = [5, 2, 5, 4, 6, 4, 6, 7];

// K1, K3, K5 and K11: map T, and one kernel on it.
pub fn kernels() {
    let t = Run::start(8, T);
    t.expect((0, 0, 0), T, [0, 0, 0, 0], (4, 2));
    t.reduce(Kind::Contract, &[3])
        .expect((0, 0, 0), K3, [13, 0, 0, 0], (3, 2));
    t.reduce(Kind::Contract, &[0, 1])
        .expect((0, 0, 0), K5, [1, 5, 0, 0], (2, 2));
    t.reduce(Kind::Remove, &[0, 0])
        .expect((8, 1, 0), T, [0, 0, 0, 0], (4, 2));
}

// K7 after K5: edge 2 cannot be contracted; a removal turns round, and so does the sweep, which an undo takes back to K5.
pub fn sweep_and_undo() {
    let zones = Run::start(8, T).reduce(Kind::Contract, &[0, 1]);
    zones
        .reduce(Kind::Contract, &[2])
        .expect((9, 0, 0), K5, [1, 5, 0, 0], (2, 2));
    zones
        .reduce(Kind::Remove, &[2])
        .expect((0, 0, 0), K7, [1, 5, 10, 0], (2, 1));
    let swept = zones.sweep();
    swept.expect((0, 0, 0), K7, [1, 5, 10, 0], (2, 1));
    swept.undo().expect((0, 0, 0), K5, [1, 5, 10, 0], (2, 2));
}

// K8 after K7: edge 3 is all that is left, so it is a whole piece to a contraction, and a removal finds one face on both sides.
pub fn refused_at_the_top() {
    let swept = Run::start(8, T).reduce(Kind::Contract, &[0, 1]).sweep();
    swept
        .reduce(Kind::Contract, &[3])
        .expect((11, 0, 0), K7, [1, 5, 10, 0], (2, 1));
    swept
        .reduce(Kind::Remove, &[3])
        .expect((10, 0, 0), K7, [1, 5, 10, 0], (2, 1));
}

// K10, and beside it a successor out of range: two darts, in a table that goes on behind them.
pub fn two_darts() {
    let repeats = [1, 1, 9, 9, 9, 9, 9, 9];
    let out_of_range = [0, 2, 9, 9, 9, 9, 9, 9];
    let loop_alone = [1, 0, 9, 9, 9, 9, 9, 9];
    Run::start(2, repeats).expect((3, 1, 0), repeats, [0, 0, 0, 0], (0, 0));
    Run::start(2, out_of_range).expect((3, 1, 2), out_of_range, [0, 0, 0, 0], (0, 0));
    let alone = Run::start(2, loop_alone);
    alone.expect((0, 0, 0), loop_alone, [0, 0, 0, 0], (1, 2));
    alone
        .reduce(Kind::Remove, &[0])
        .expect((11, 0, 0), loop_alone, [0, 0, 0, 0], (1, 2));
}

// Both culprits: in each table one successor repeats a lower dart's and another is out of range. The lowest such dart decides, and the second place is the
// lower dart, or D.
pub fn both_culprits() {
    let repeats_first = [2, 0, 0, 9, 9, 9, 9, 9];
    let out_of_range_first = [2, 9, 2, 0, 9, 9, 9, 9];
    Run::start(4, repeats_first).expect((3, 2, 1), repeats_first, [0, 0, 0, 0], (0, 0));
    Run::start(4, out_of_range_first).expect((3, 1, 4), out_of_range_first, [0, 0, 0, 0], (0, 0));
}
