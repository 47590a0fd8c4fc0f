// W and P of the sets that the slots name, by the rule (document 01, "From doses to classes"), against the C records.
#![tactic(auto)]

ghost use Rattle.std.specs.Prelude.{◌≡◌, ℕ, ◌+◌, ◌-◌, ◌/◌, ◌<◌, ◌≤◌, length, get_or};
ghost use Rattle.model.specs.Limits.{most_doses, most_instants, most_intervals};
ghost use Rattle.model.specs.Records.{record_size};
ghost use Rattle.records.specs.Held.{as_class};
ghost use Rattle.records.specs.Plan.{class_in};
ghost use Rattle.judge_clauses.specs.Tests.{Tells, ClassFits, Falls, order_held, Says};

use interval::Instants;
use judge_clauses::Certificate;
use measure::{fan_time, open_fans, set_of, size_of, weight_of};
use order::Order;
use records::{Class, class_at};
use std::array;
use steps::excess;
use steps::limits::MOST_INTERVALS;

// "fans − fans reserved by earlier classes", after one class more.
fn free_after(
    free: &[u64; MOST_INTERVALS],
    reserved: &[u64; MOST_INTERVALS],
) -> [u64; MOST_INTERVALS]
    ensures { (j : ℕ) → j < most_intervals → get_or result j 0 ≡ get_or free.now j 0 - get_or reserved.now j 0 }
{
    array::from_fn(|j| free[j].saturating_sub(reserved[j]))
}

fn says(c: Class, i: usize, size: u64, weight: u64, time: u64) -> bool
    requires { i < most_doses }
    ensures { Tells result (Says (as_class c) i size weight time) }
{
    c.number as usize == i + 1
        && u64::from(c.doses) == size
        && 1 <= c.doses
        && u64::from(c.weight) == weight
        && u64::from(c.time) == time
}

// "the C records are exactly the order's classes": of the sets that the slots name.
pub fn classes_fit(plan: &[u8], certificate: &Certificate, o: &Order, instants: &Instants) -> bool
    requires { (certificate.now.classes ≤ length plan.now / record_size) × (certificate.now.classes ≤ most_doses) × (o.now.count ≤ most_doses) × (instants.now.count ≤ most_instants) }
    ensures { Tells result ((i : ℕ) → i < certificate.now.classes → ClassFits (order_held o.now instants.now) certificate.now.numbers i (class_in plan.now i)) }
{
    let mut free = [u64::from(o.fans); MOST_INTERVALS];
    for i in 0..certificate.classes {
        let set = set_of(&certificate.numbers, i);
        let reserved = open_fans(o, instants, &set, &free);
        let time = fan_time(instants, &reserved);
        let weight = weight_of(o, &set);
        let size = size_of(o.count, &set);
        let c = class_at(plan, i);
        if !says(c, i, size, weight, time) {
            return false;
        }
        free = free_after(&free, &reserved);
    }
    true
}

// "Fractions are compared by exact products."
fn falls(c: Class, d: Class) -> bool
    ensures { Tells result (Falls (as_class c) (as_class d)) }
{
    excess(c.weight, c.time, d.weight, d.time) != 0
}

// "Class rates fall strictly from class to class."
pub fn rates_fall(plan: &[u8], p: usize) -> bool
    requires { p ≤ length plan.now / record_size }
    ensures { Tells result ((i : ℕ) → i + 1 < p → Falls (class_in plan.now i) (class_in plan.now (i + 1))) }
{
    (1..p).all(|i| {
        let c = class_at(plan, i - 1);
        let d = class_at(plan, i);
        falls(c, d)
    })
}
