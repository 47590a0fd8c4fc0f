// "each dose's slots total w × P units".
ghost use Rattle.std.specs.Prelude.{◌≡◌, ℕ, ◌/◌, ◌<◌, ◌≤◌, length, get_or};
ghost use Rattle.model.specs.Limits.{most_doses};
ghost use Rattle.model.specs.Records.{record_size};
ghost use Rattle.records.specs.Plan.{slot_in};
ghost use Rattle.order.specs.Held.{dose_held};
ghost use Rattle.judge_clauses.specs.Tests.{Tells, Counts, Known, units_up_to, need_in};

use judge_clauses::Certificate;
use order::Order;
use records::{class_at, ends, record_count, slot_at, starts};
use steps::limits::MOST_DOSES;
use steps::product;

// "w × P units": what dose k needs.
fn need(plan: &[u8], certificate: &Certificate, o: &Order, k: usize) -> u64
    requires { (o.now.count ≤ most_doses) × (k < o.now.count) × Known o.now.count plan.now certificate.now.numbers }
    ensures { result ≡ need_in (λ i. (dose_held o.now i).grams) plan.now certificate.now.numbers k }
{
    let c = class_at(plan, certificate.numbers[k] as usize - 1);
    product(o.dose(k).grams, c.time)
}

// A sum that would pass its need ends the count, so that no sum wraps, however long the plan is.
pub fn units_met(plan: &[u8], certificate: &Certificate, o: &Order) -> bool
    requires { (o.now.count ≤ most_doses) × (certificate.now.classes ≤ length plan.now / record_size) × Known o.now.count plan.now certificate.now.numbers × ((i : ℕ) → i < length plan.now / record_size → certificate.now.classes ≤ i → Counts o.now.count plan.now certificate.now.numbers (slot_in plan.now i)) }
    ensures { Tells result ((k : ℕ) → k < o.now.count → units_up_to plan.now certificate.now.classes (length plan.now / record_size) k ≡ need_in (λ i. (dose_held o.now i).grams) plan.now certificate.now.numbers k) }
{
    let mut sums = [0u64; MOST_DOSES];
    for i in certificate.classes..record_count(plan) {
        let s = slot_at(plan, i);
        let k = s.dose as usize;
        let had = sums[k];
        let need = product(o.dose(k).grams, s.time);
        let units = ends(s) - starts(s);
        if need - had < units {
            return false;
        }
        sums[k] = had + units;
    }
    (0..o.count).all(|k| sums[k] == need(plan, certificate, o, k))
}
