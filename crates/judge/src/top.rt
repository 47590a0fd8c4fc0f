// Refusal 9: "first class: W × top seconds above P × top grams".
ghost use Rattle.model.proofs.Orders.{Fit};
ghost use Rattle.order.specs.Held.{as_order};
ghost use Rattle.classes.specs.Answer.{AgainstTop};
ghost use Rattle.judge.specs.Verdict.{Leader};

use classes::{TooFast, classes_of, too_fast};
use judge_clauses::Certificate;
use measure::first_set;
use order::Order;
use records::class_at;
use steps::excess;
use steps::limits::{CELLS, MOST_DOSES, MOST_INTERVALS};

// A plan that stands names the order's first class in its first record.
pub fn by_certificate(o: &Order, plan: &[u8], certificate: &Certificate) -> Option<TooFast>
    requires { Fit (as_order o.now) × Leader (as_order o.now) plan.now certificate.now.classes certificate.now.numbers }
    ensures { AgainstTop (as_order o.now) result }
{
    if certificate.classes == 0 {
        return None;
    }
    let c = class_at(plan, 0);
    if excess(c.weight, c.time, o.top_grams, o.top_seconds) == 0 {
        return None;
    }
    Some(TooFast {
        set: first_set(&certificate.numbers, o.count),
        weight: u64::from(c.weight),
        time: u64::from(c.time),
    })
}

// Where the plan does not stand, the classes are worked out to tell 9 from 10.
pub fn by_classes(o: &Order) -> Option<TooFast>
    requires { Fit (as_order o.now) }
    ensures { AgainstTop (as_order o.now) result }
{
    let mut shares = [0u64; CELLS];
    let mut table = [[0u8; MOST_INTERVALS]; MOST_DOSES];
    let t = classes_of(o, &mut shares, &mut table);
    too_fast(o, &t)
}
