// Which darts are in one zone, as the numbers stand.
ghost use Rattle.std.specs.Prelude.{◌≤◌, length};
ghost use Rattle.forest.specs.Forest.{Falls};

// Two darts go together. A number that is no dart goes with none.
fn pair(zones: &mut [u32], x: usize, y: usize)
    requires { Falls zones.old }
    ensures { Falls zones.new }
{
    if x < zones.len() && y < zones.len() {
        let _ = forest::join(zones, x, y);
    }
}

// A dart goes with the one that its entry names, also where it is gone.
fn pair_entries(zones: &mut [u32], table: &[u32])
    requires { Falls zones.old }
    ensures { Falls zones.new }
{
    for (x, y) in table.iter().enumerate() {
        pair(zones, x, *y as usize);
    }
}

// The darts of each edge that a history number contracted go together: "2p for a removal and 2p+1 for a contraction".
fn pair_contracted(zones: &mut [u32], history: &[u32])
    requires { Falls zones.old }
{
    for number in history {
        if *number % 2 == 1 {
            let even = *number as usize / 4 * 2;
            pair(zones, even, even + 1);
        }
    }
}

// Each dart by itself, and then what goes together, by the darts' entries and the history numbers: a zone's root is its lowest dart.
pub fn find_zones(zones: &mut [u32], table: &[u32], history: &[u32])
    requires { length zones.old ≤ 65536 }
{
    forest::fresh(zones);
    pair_entries(zones, table);
    pair_contracted(zones, history);
}
