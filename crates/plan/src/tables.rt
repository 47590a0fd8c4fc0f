// The tables that slots are laid by, from an order's instants and classes.
ghost use Rattle.std.specs.Prelude.{◌≡◌, ℕ, ◌%◌, ◌<◌, get_or};
ghost use Rattle.model.specs.Limits.{most_doses};
ghost use Rattle.plan.specs.Held.{TablesOf};

use classes::Tally;
use interval::Instants;
use plan_layout::Tables;
use std::array;
use steps::limits::MOST_DOSES;

// W and P are at most 24 × 1,000,000 and 8 × 604,800: numbers of four bytes. The remainder, which changes neither, spares a clause that says so; `TryFrom`
// would bring an error that can't come.
fn narrow(wide: &[u64; MOST_DOSES]) -> [u32; MOST_DOSES]
    ensures { (i : ℕ) → i < most_doses → get_or result i 0 ≡ get_or wide.now i 0 % 4294967296 }
{
    array::from_fn(|i| (wide[i] % 4294967296) as u32)
}

pub fn tables_of(doses: usize, s: &Instants, tally: &Tally) -> Tables
    ensures { TablesOf doses s.now tally.now result }
{
    Tables {
        doses,
        classes: tally.class,
        intervals: interval::interval_count(s),
        instants: s.at,
        weight: narrow(&tally.weight),
        time: narrow(&tally.time),
        class_of: tally.numbers,
    }
}
