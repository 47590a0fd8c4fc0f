// The table of reservations: "a row per class and a column per interval".
ghost use Rattle.std.specs.Prelude.{◌≡◌, ℕ, ◌-◌, ◌<◌, ◌≤◌, get_or};
ghost use Rattle.model.specs.Limits.{most_doses, most_intervals};
ghost use Rattle.model.specs.Sets.{sum};
ghost use Rattle.measure.specs.Arrays.{Below};
ghost use Rattle.classes.specs.Phase.{row_at, Reserved};

use std::array;
use steps::limits::{MOST_DOSES, MOST_INTERVALS};

// The fans that the first classes reserve in interval j.
fn reserved_before(table: &[[u8; MOST_INTERVALS]; MOST_DOSES], classes: usize, j: usize) -> u64
    requires { (classes ≤ most_doses) × (j < most_intervals) }
    ensures { result ≡ sum classes (λ i. row_at table.now i j) }
{
    let mut sum = 0;
    for i in 0..classes {
        sum += u64::from(table[i][j]);
    }
    sum
}

// "fans − fans reserved by earlier classes", for each interval.
pub fn free_fans(
    table: &[[u8; MOST_INTERVALS]; MOST_DOSES],
    fans: u64,
    classes: usize,
) -> [u64; MOST_INTERVALS]
    requires { classes ≤ most_doses }
    ensures { (j : ℕ) → j < most_intervals → get_or result j 0 ≡ fans - sum classes (λ i. row_at table.now i j) }
{
    array::from_fn(|j| fans.saturating_sub(reserved_before(table, classes, j)))
}

// "The class reserves, per interval, the smaller of the two numbers above": its row of the table, as small counts.
pub fn reserve(
    table: &mut [[u8; MOST_INTERVALS]; MOST_DOSES],
    class: usize,
    reserved: &[u64; MOST_INTERVALS],
)
    requires { (class < most_doses) × Below most_doses reserved.now }
    ensures { Reserved class reserved.now table.old table.new }
{
    table[class] = array::from_fn(|j| reserved[j] as u8);
}
