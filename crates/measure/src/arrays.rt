// An order's doses and intervals in arrays, with nothing past the last dose and the last interval.
ghost use Rattle.std.specs.Prelude.{◌≡◌, ◌&&◌, ◌<◌, ◌≤◌, ltb};
ghost use Rattle.model.specs.Limits.{most_doses, most_intervals};
ghost use Rattle.model.proofs.Orders.{Fit};
ghost use Rattle.order.specs.Held.{as_order};
ghost use Rattle.interval.specs.Held.{InstantsOf, active_in};
ghost use Rattle.measure.specs.Arrays.{GramsIn, LensIn, ActiveIn, OrderArrays, intervals_of};

use interval::{Instants, interval_count, span};
use order::Order;
use std::array;
use steps::limits::{CELLS, MOST_DOSES, MOST_INTERVALS};

pub fn grams_in(o: &Order) -> [u32; MOST_DOSES]
    requires { o.now.count ≤ most_doses }
    ensures { GramsIn o.now result }
{
    array::from_fn(|k| if k < o.count { o.dose(k).grams } else { 0 })
}

pub fn lens_in(s: &Instants) -> [u64; MOST_INTERVALS]
    ensures { LensIn s.now result }
{
    array::from_fn(|j| u64::from(span(s, j)))
}

// Dose k is active in interval j: both are there, and the window reaches over the interval.
fn active_at(o: &Order, s: &Instants, intervals: usize, k: usize, j: usize) -> bool
    requires { (k < most_doses) × (j < most_intervals) }
    ensures { result ≡ (ltb k o.now.count && (ltb j intervals && active_in o.now s.now k j)) }
{
    k < o.count && j < intervals && interval::active(o, s, k, j)
}

pub fn active_in_order(o: &Order, s: &Instants, intervals: usize) -> [bool; CELLS]
    ensures { ActiveIn o.now s.now intervals result }
{
    array::from_fn(|i| active_at(o, s, intervals, i / MOST_INTERVALS, i % MOST_INTERVALS))
}

// What the classes of an order are found by: the order and its instants; which dose is active in which interval, dose k in interval j at
// k * 47 + j; how long each interval is; what each dose weighs. The grams stand beside the order, since needs are laid for all 24 places, and past the
// doses nothing weighs.
#[derive(Drop)]
pub struct Setting {
    pub order: Order,
    pub instants: Instants,
    pub active: [bool; CELLS],
    pub lens: [u64; MOST_INTERVALS],
    pub grams: [u32; MOST_DOSES],
    pub ghost arrays: { OrderArrays order instants active lens grams },
}

impl Setting {
    // The setting of an order with its instants.
    pub fn of(o: &Order, s: &Instants) -> Self
        requires { Fit (as_order o.now) × InstantsOf o.now s.now }
        ensures { (result.order ≡ o.now) × (result.instants ≡ s.now) × ActiveIn o.now s.now (intervals_of s.now) result.active × LensIn s.now result.lens × GramsIn o.now result.grams }
    {
        Setting {
            order: *o,
            instants: *s,
            active: active_in_order(o, s, interval_count(s)),
            lens: lens_in(s),
            grams: grams_in(o),
        }
    }
}
