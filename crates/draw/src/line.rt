// A dose's line in plan bytes (document 01, "The drawn line"; Dosing by the whole second, document 02, C-12).
#![tactic(auto)]

ghost use Rattle.std.specs.Prelude.{◌≡◌, ◌/◌, ◌<◌, ◌≤◌, true, false, length, MatchOption};
ghost use Rattle.model.specs.Limits.{most_doses, most_grams};
ghost use Rattle.model.specs.Records.{record_size};
ghost use Rattle.model.specs.Plans.{slots_read, plan_records};
ghost use Rattle.model.specs.Line.{units_before, time_of, drawn, fed_at, state_at, point_at};
ghost use Rattle.model.specs.Line as line;
ghost use Rattle.records.specs.Held.{as_slot};
ghost use Rattle.records.specs.Plan.{slot_in};
ghost use Rattle.order.specs.Held.{as_order};
ghost use Rattle.draw.specs.Drawing.{as_state, as_point, own_slot, slot_units, earlier_fed, Drawable};

use crate::{Point, State};
use order::Order;
use records::{Kind, Slot, ends, kind_at, moment, record_count, slot_at, starts};
use steps::product;

// What is kept of a slot by which a dose is fed in a second: its fan, and its start in units of 1/W.
#[derive(Clone, Copy)]
pub struct Fed {
    pub fan: u32,
    pub start: u64,
}

// A dose's line in plan bytes, with the P that its slots name: a caller who asks at many ticks looks for that once. The bytes are records
// and give the dose a line, as in every plan that stands.
#[derive(Clone, Copy)]
pub struct Line<'a> {
    pub plan: &'a [u8],
    pub dose: usize,
    pub time: u32,
    pub ghost drawable: { ∥ Drawable plan.now dose ∥₁ },
    pub ghost timed: { time ≡ time_of (slots_read (plan_records plan.now)) dose },
}

// Record k, if it is a slot of the dose. Most records are slots of others: the dose is asked first.
#[tactic(auto, unfolding(crate::specs::Drawing::own_slot))]
fn own_slot(plan: &[u8], k: usize, dose: usize) -> Option<Slot>
    requires { k < length plan.now / record_size }
    ensures { MatchOption result (own_slot plan.now k dose ≡ false) (λ s. (own_slot plan.now k dose ≡ true) × (as_slot s ≡ slot_in plan.now k)) }
{
    let s = slot_at(plan, k);
    if dose == s.dose as usize && kind_at(plan, k) == Kind::Slot {
        Some(s)
    } else {
        None
    }
}

// The units of a slot before a tick.
#[tactic(auto, unfolding(crate::specs::Drawing::slot_units))]
fn units_in(s: Slot, tick: u32) -> u64
    ensures { result ≡ slot_units (as_slot s) tick }
{
    ends(s)
        .min(product(tick, s.weight))
        .saturating_sub(starts(s))
}

// "starts before t+1 and ends after t": second t + 1 starts a whole W of parts behind second t.
fn feeds(s: Slot, tick: u32) -> bool
    ensures { result ≡ line.feeds (as_slot s) tick }
{
    let now = product(tick, s.weight);
    let next = moment(tick, s.weight, s.weight);
    starts(s) < next && now < ends(s)
}

// Of a slot and what is kept of one behind it the earlier: slots of one dose name one W, so that their starts are compared as units.
#[tactic(auto, unfolding(crate::specs::Drawing::earlier_fed))]
fn earlier(s: Slot, later: Option<Fed>) -> Fed
    ensures { result ≡ earlier_fed (as_slot s) later }
{
    let start = starts(s);
    match later {
        Some(fed) if fed.start < start => fed,
        _ => Fed { fan: s.fan, start },
    }
}

// The P that the dose's slots name, as the first has it.
fn time_in(plan: &[u8], dose: usize) -> u32
    requires { Drawable plan.now dose }
    ensures { result ≡ time_of (slots_read (plan_records plan.now)) dose }
{
    for k in 0..record_count(plan) {
        if let Some(s) = own_slot(plan, k, dose) {
            return s.time;
        }
    }
    0 // not come to: a dose that can be drawn has a slot
}

impl<'a> Line<'a> {
    // The line of a dose.
    pub fn of(plan: &'a [u8], dose: usize) -> Line<'a>
        requires { Drawable plan.now dose }
        ensures { (result.plan.now ≡ plan.now) × (result.dose ≡ dose) × (result.time ≡ time_of (slots_read (plan_records plan.now)) dose) }
    {
        Line {
            plan,
            dose,
            time: time_in(plan, dose),
        }
    }

    // "units of the dose's slots before t"
    fn units_before(&self, tick: u32) -> u64
        ensures { result ≡ units_before (slots_read (plan_records self.now.plan.now)) self.now.dose tick }
    {
        let mut sum = 0;
        for k in 0..record_count(self.plan) {
            if let Some(s) = own_slot(self.plan, k, self.dose) {
                sum += units_in(s, tick);
            }
        }
        sum
    }

    // "Exact amount at tick t: units of the dose's slots before t, divided by P. Drawn amount: its whole part, one division at the end."
    pub fn amount_at(&self, tick: u32) -> u32
        ensures { (result ≡ drawn (slots_read (plan_records self.now.plan.now)) self.now.dose tick) × (result ≤ most_grams) }
    {
        (self.units_before(tick) / u64::from(self.time)) as u32
    }

    // "the earliest such slot": from the last record back, as the definition goes, the earlier of a slot and of those behind it. "Dosing ..
    // the fan is that of the earliest such slot", "else Idle".
    fn fed_at(&self, tick: u32) -> State
        ensures { as_state result ≡ fed_at (slots_read (plan_records self.now.plan.now)) self.now.dose tick }
    {
        let mut kept = None;
        for k in (0..record_count(self.plan)).rev() {
            if let Some(s) = own_slot(self.plan, k, self.dose)
                && feeds(s, tick)
            {
                kept = Some(earlier(s, kept));
            }
        }
        match kept {
            Some(fed) => State::Dosing(fed.fan),
            None => State::Idle,
        }
    }

    // "Finished if t is at or past the deadline, else Shut before the release, else Dosing .., else Idle"
    fn state_at(&self, o: &Order, tick: u32) -> State
        requires { (o.now.count ≤ most_doses) × (self.now.dose < o.now.count) }
        ensures { as_state result ≡ state_at (as_order o.now) (slots_read (plan_records self.now.plan.now)) self.now.dose tick }
    {
        let d = o.dose(self.dose);
        if d.deadline <= tick {
            State::Finished
        } else if tick < d.release {
            State::Shut
        } else {
            self.fed_at(tick)
        }
    }

    // "A point is an amount together with one of four states"
    pub fn point_at(&self, o: &Order, tick: u32) -> Point
        requires { (o.now.count ≤ most_doses) × (self.now.dose < o.now.count) }
        ensures { as_point result ≡ point_at (as_order o.now) (slots_read (plan_records self.now.plan.now)) self.now.dose tick }
    {
        Point {
            amount: self.amount_at(tick),
            state: self.state_at(o, tick),
        }
    }
}
