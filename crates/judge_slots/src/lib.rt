// The clauses that go over the slots one by one (document 01, "A plan stands"): here those of each slot by itself.
#![tactic(auto)]

mod units; // units.rt: what the slots of each dose total

ghost use Rattle.std.specs.Prelude.{◌≡◌, ℕ, ◌-◌, ◌/◌, ◌<◌, ◌≤◌, length};
ghost use Rattle.model.specs.Limits.{most_doses, most_instants};
ghost use Rattle.model.specs.Records.{record_size};
ghost use Rattle.model.specs.Stands.{Between};
ghost use Rattle.records.specs.Held.{as_class, as_slot};
ghost use Rattle.records.specs.Plan.{slot_in};
ghost use Rattle.judge_clauses.specs.Tests.{Tells, Known, SlotNames, SlotLong, SlotFits, InPlace, interval_of, order_held};

use interval::{Instants, interval_count};
use judge_clauses::Certificate;
use order::Order;
use records::{Class, Slot, class_at, ends, moment, record_count, slot_at, starts};
pub use units::units_met;

// "that class's W and P, an existing fan".
fn slot_names(s: Slot, fans: u32, number: u32, c: Class) -> bool
    ensures { Tells result (SlotNames fans number (as_class c) (as_slot s)) }
{
    number == s.class && s.weight == c.weight && s.time == c.time && 1 <= s.fan && s.fan <= fans
}

// "has both parts below W and start before end".
fn slot_long(s: Slot) -> bool
    ensures { Tells result (SlotLong (as_slot s)) }
{
    s.start_part < s.weight && s.end_part < s.weight && starts(s) < ends(s)
}

fn between(s: Slot, from: u32, to: u32) -> bool
    ensures { Tells result (Between from to (as_slot s)) }
{
    moment(from, 0, s.weight) <= starts(s) && ends(s) <= moment(to, 0, s.weight)
}

// The interval in which a tick lies; the number of intervals where it lies in none, as the definition has it.
pub fn interval_of(instants: &Instants, tick: u32) -> usize
    requires { instants.now.count ≤ most_instants }
    ensures { (result ≡ interval_of instants.now.at (instants.now.count - 1) tick) × (result ≤ instants.now.count - 1) }
{
    let intervals = interval_count(instants);
    for j in 0..intervals {
        if tick < instants.at[j + 1] {
            return j;
        }
    }
    intervals
}

// "and lies within .. one interval".
fn in_place(s: Slot, instants: &Instants) -> bool
    requires { instants.now.count ≤ most_instants }
    ensures { Tells result (InPlace instants.now.at (instants.now.count - 1) (as_slot s)) }
{
    let j = interval_of(instants, s.start_tick);
    j < interval_count(instants) && between(s, instants.at[j], instants.at[j + 1])
}

// One slot by itself.
fn slot_fits(
    s: Slot,
    plan: &[u8],
    certificate: &Certificate,
    o: &Order,
    instants: &Instants,
) -> bool
    requires { (o.now.count ≤ most_doses) × (instants.now.count ≤ most_instants) × Known o.now.count plan.now certificate.now.numbers }
    ensures { Tells result (SlotFits (order_held o.now instants.now) plan.now certificate.now.numbers (as_slot s)) }
{
    let k = s.dose as usize;
    if o.count <= k {
        return false;
    }
    let number = certificate.numbers[k];
    let c = class_at(plan, number as usize - 1);
    let d = o.dose(k);
    slot_names(s, o.fans, number, c)
        && slot_long(s)
        && between(s, d.release, d.deadline)
        && in_place(s, instants)
}

// Each slot by itself.
pub fn slots_fit(plan: &[u8], certificate: &Certificate, o: &Order, instants: &Instants) -> bool
    requires { (o.now.count ≤ most_doses) × (instants.now.count ≤ most_instants) × Known o.now.count plan.now certificate.now.numbers }
    ensures { Tells result ((i : ℕ) → i < length plan.now / record_size → certificate.now.classes ≤ i → SlotFits (order_held o.now instants.now) plan.now certificate.now.numbers (slot_in plan.now i)) }
{
    (certificate.classes..record_count(plan)).all(|i| {
        let s = slot_at(plan, i);
        slot_fits(s, plan, certificate, o, instants)
    })
}
