// The class number of each dose, as the plan's own slots name it.
ghost use Rattle.std.specs.Prelude.{ℕ, ◌/◌, ◌<◌, ◌≤◌, length, get_or};
ghost use Rattle.model.specs.Limits.{most_doses};
ghost use Rattle.model.specs.Records.{record_size};
ghost use Rattle.judge_clauses.specs.Tests.{Tells, ClassNumbers};

use records::{record_count, slot_at};
use steps::limits::MOST_DOSES;

// "each slot names a dose of its class": the slots' own numbers, the last one of each dose that there can be.
pub fn class_numbers(plan: &[u8], p: usize) -> [u32; MOST_DOSES]
    requires { p ≤ length plan.now / record_size }
    ensures { ClassNumbers plan.now p (length plan.now / record_size) result }
{
    let mut numbers = [0u32; MOST_DOSES];
    for i in p..record_count(plan) {
        let s = slot_at(plan, i);
        let k = s.dose as usize;
        if k < MOST_DOSES {
            numbers[k] = s.class;
        }
    }
    numbers
}

// Every dose has one of the p classes.
pub fn all_numbered(numbers: &[u32; MOST_DOSES], doses: usize, p: usize) -> bool
    requires { doses ≤ most_doses }
    ensures { Tells result ((k : ℕ) → k < doses → (1 ≤ get_or numbers.now k 0) × (get_or numbers.now k 0 ≤ p)) }
{
    (0..doses).all(|k| 1 <= numbers[k] && numbers[k] as usize <= p)
}
