// Two slots: "slots by interval, fan, start"; "no two slots of one fan overlap; no two slots of one dose overlap".
#![tactic(auto)]

ghost use Rattle.std.specs.Prelude.{ℕ, ◌+◌, ◌-◌, ◌/◌, ◌<◌, ◌≤◌, length};
ghost use Rattle.model.specs.Limits.{most_instants};
ghost use Rattle.model.specs.Records.{record_size};
ghost use Rattle.model.specs.Stands.{EndsBy};
ghost use Rattle.records.specs.Held.{as_slot};
ghost use Rattle.records.specs.Plan.{slot_in};
ghost use Rattle.judge_clauses.specs.Tests.{Tells, SlotLong, InTurn, SlotsReady, Apart, ApartAfter};

use interval::Instants;
use judge_slots::interval_of;
use records::{Slot, record_count, slot_at};
use steps::product;

// s ends at or before the moment at which u starts: ticks first, then products of parts, which fit 64 bits. That a slot is long is known only where
// `slots_fit` has passed; a type that says so would be taken apart at every field that is read here.
fn ends_by(s: Slot, u: Slot) -> bool
    requires { SlotLong (as_slot s) × SlotLong (as_slot u) }
    ensures { Tells result (EndsBy (as_slot s) (as_slot u)) }
{
    s.end_tick < u.start_tick
        || s.end_tick == u.start_tick
            && product(s.end_part, u.weight) <= product(u.start_part, s.weight)
}

// Neighbours: the later one in a later interval, or on a higher fan, or behind the other.
fn in_turn(s: Slot, u: Slot, instants: &Instants) -> bool
    requires { (instants.now.count ≤ most_instants) × SlotLong (as_slot s) × SlotLong (as_slot u) }
    ensures { Tells result (InTurn instants.now.at (instants.now.count - 1) (as_slot s) (as_slot u)) }
{
    let i = interval_of(instants, s.start_tick);
    let j = interval_of(instants, u.start_tick);
    if i != j {
        return i < j;
    }
    if s.fan != u.fan {
        return s.fan < u.fan;
    }
    ends_by(s, u)
}

// "The order of slots counts".
pub fn all_in_turn(plan: &[u8], p: usize, instants: &Instants) -> bool
    requires { (instants.now.count ≤ most_instants) × (p ≤ length plan.now / record_size) × ((i : ℕ) → i < length plan.now / record_size → p ≤ i → SlotLong (slot_in plan.now i)) }
    ensures { Tells result ((i : ℕ) → i + 1 < length plan.now / record_size → p ≤ i → InTurn instants.now.at (instants.now.count - 1) (slot_in plan.now i) (slot_in plan.now (i + 1))) }
{
    (p + 1..record_count(plan)).all(|i| {
        let s = slot_at(plan, i - 1);
        let u = slot_at(plan, i);
        in_turn(s, u, instants)
    })
}

// Two slots of one dose do not overlap.
fn apart(s: Slot, u: Slot) -> bool
    requires { SlotLong (as_slot s) × SlotLong (as_slot u) }
    ensures { Tells result (Apart (as_slot s) (as_slot u)) }
{
    s.dose != u.dose || ends_by(s, u) || ends_by(u, s)
}

// Slot i against the later ones of its interval: those of later intervals are apart.
fn clear_after(plan: &[u8], p: usize, i: usize, instants: &Instants) -> bool
    requires { (instants.now.count ≤ most_instants) × (p ≤ i) × (i < length plan.now / record_size) × SlotsReady instants.now.at (instants.now.count - 1) plan.now p }
    ensures { Tells result (ApartAfter instants.now.at (instants.now.count - 1) plan.now i (length plan.now / record_size)) }
{
    let s = slot_at(plan, i);
    let end = instants.at[interval_of(instants, s.start_tick) + 1];
    for l in i + 1..record_count(plan) {
        let u = slot_at(plan, l);
        if end <= u.start_tick {
            return true;
        }
        if !apart(s, u) {
            return false;
        }
    }
    true
}

// "no two slots of one dose overlap".
pub fn all_clear(plan: &[u8], p: usize, instants: &Instants) -> bool
    requires { (instants.now.count ≤ most_instants) × SlotsReady instants.now.at (instants.now.count - 1) plan.now p }
    ensures { Tells result ((i : ℕ) → i < length plan.now / record_size → p ≤ i → ApartAfter instants.now.at (instants.now.count - 1) plan.now i (length plan.now / record_size)) }
{
    (p..record_count(plan)).all(|i| clear_after(plan, p, i, instants))
}
