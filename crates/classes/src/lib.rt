// The rate classes of an order and their shares (document 01, "From doses to classes"). Doses and intervals stand in arrays: dose k is
// active in interval j at k * 47 + j, and nothing stands past the doses and the intervals.
#![tactic(auto)]

mod numbers; // numbers.rt: a refusal in numbers
mod sequence; // sequence.rt: which dose is filled first
mod table; // table.rt: reservations

ghost use Rattle.std.specs.Prelude.{◌≡◌, false, not, ◌&&◌, ℕ, ◌<◌, ◌≤◌, get_or};
ghost use Rattle.model.specs.Limits.{most_doses};
ghost use Rattle.model.proofs.Orders.{Fit};
ghost use Rattle.order.specs.Held.{as_order};
ghost use Rattle.measure.specs.Held.{as_setting};
ghost use Rattle.classes.specs.Answer.{ClassesOf, SharesOf, AgainstTop};
ghost use Rattle.classes.specs.Phase.{choose, Start, Blank, After, KeptShares, SoFar};

use class_rounds::{Class, next_class};
use measure::{Setting, first_set, size_of};
pub use numbers::Numbers;
use order::Order;
use sequence::by_deadline;
use std::array;
use steps::excess;
use steps::limits::{CELLS, MOST_DOSES, MOST_INTERVALS};
use table::{free_fans, reserve};

// The shares of the class's doses are kept; those of other doses stay.
fn keep_shares(shares: &mut [u64; CELLS], x: &[u64; CELLS], members: &[bool; MOST_DOSES])
    ensures { KeptShares members.now x.now shares.old shares.new }
{
    for (i, share) in shares.iter_mut().enumerate() {
        if members[i / MOST_INTERVALS] {
            *share = x[i];
        }
    }
}

// The phases so far: "remaining doses, class number and counts", with the class number of each dose (0: none yet) and W and P of
// each class. Class numbers are as records have them, from 1. The project uses no heap, so the arrays have room for all classes, and their count
// stands beside them. W and P have an array each, and no struct of both: what is added up over the classes is the one or the other, as a slice.
#[derive(Clone, Copy)]
pub struct Tally {
    pub remaining: [bool; MOST_DOSES],
    pub class: usize,
    pub classed: u64,
    pub numbers: [u32; MOST_DOSES],
    pub weight: [u64; MOST_DOSES],
    pub time: [u64; MOST_DOSES],
}

fn left_of(remaining: &[bool; MOST_DOSES], members: &[bool; MOST_DOSES]) -> [bool; MOST_DOSES]
    ensures { (k : ℕ) → k < most_doses → get_or result k false ≡ (get_or remaining.now k false && not (get_or members.now k false)) }
{
    array::from_fn(|k| remaining[k] && !members[k])
}

fn number_members(
    before: &[u32; MOST_DOSES],
    members: &[bool; MOST_DOSES],
    class: u32,
) -> [u32; MOST_DOSES]
    ensures { (k : ℕ) → k < most_doses → get_or result k 0 ≡ choose (get_or members.now k false) class (get_or before.now k 0) }
{
    array::from_fn(|k| if members[k] { class } else { before[k] })
}

impl Tally {
    // At first every dose remains.
    pub fn start(doses: usize) -> Self
        requires { doses ≤ most_doses }
        ensures { Start doses result }
    {
        Tally {
            remaining: array::from_fn(|k| k < doses),
            class: 0,
            classed: 0,
            numbers: [0; MOST_DOSES],
            weight: [0; MOST_DOSES],
            time: [0; MOST_DOSES],
        }
    }

    // The tally after one class more.
    pub fn after(self, class: &Class, doses: usize) -> Self
        requires { (self.class < most_doses) × (self.classed ≤ most_doses) × (doses ≤ most_doses) }
        ensures { After doses class.now.members class.now.weight class.now.time self result }
    {
        let number = self.class as u32 + 1;
        let mut weight = self.weight;
        weight[self.class] = class.weight;
        let mut time = self.time;
        time[self.class] = class.time;
        Tally {
            remaining: left_of(&self.remaining, &class.members),
            class: self.class + 1,
            classed: self.classed + size_of(doses, &class.members),
            numbers: number_members(&self.numbers, &class.members, number),
            weight,
            time,
        }
    }
}

// "A phase takes the tally so far and gives back the next one."
fn phase(
    shares: &mut [u64; CELLS],
    table: &mut [[u8; MOST_INTERVALS]; MOST_DOSES],
    setting: &Setting,
    sequence: &[usize; MOST_DOSES],
    tally: Tally,
) -> Tally
    requires { SoFar (as_setting setting.now) (λ j. setting.now.order.fans) tally table.old shares.old × (tally.classed < setting.now.order.count) }
    ensures { SoFar (as_setting setting.now) (λ j. setting.now.order.fans) result table.new shares.new × (tally.classed < result.classed) }
{
    let mut x = [0u64; CELLS];
    let free = free_fans(table, u64::from(setting.order.fans), tally.class);
    let next = next_class(&mut x, setting, &free, &tally.remaining, sequence);
    reserve(table, tally.class, &next.reserved);
    keep_shares(shares, &x, &next.members);
    tally.after(&next, setting.order.count)
}

// Phases until no dose remains.
fn phases(
    shares: &mut [u64; CELLS],
    table: &mut [[u8; MOST_INTERVALS]; MOST_DOSES],
    setting: &Setting,
    sequence: &[usize; MOST_DOSES],
) -> Tally
    requires { Blank table.old shares.old }
    ensures { SoFar (as_setting setting.now) (λ j. setting.now.order.fans) result table.new shares.new × (result.classed ≡ setting.now.order.count) }
{
    let mut tally = Tally::start(setting.order.count);
    while tally.classed < setting.order.count as u64 {
        tally = phase(shares, table, setting, sequence, tally);
    }
    tally
}

// The classes of an order, with the table of reservations and the shares of every class: dose k's in interval j at k * 47 + j.
pub fn classes_of(
    o: &Order,
    shares: &mut [u64; CELLS],
    table: &mut [[u8; MOST_INTERVALS]; MOST_DOSES],
) -> Tally
    requires { Fit (as_order o.now) }
    ensures { ClassesOf (as_order o.now) result × SharesOf (as_order o.now) result table.new shares.new }
{
    let instants = interval::instants_of(o);
    let setting = Setting::of(o, &instants);
    let sequence = by_deadline(o);
    *shares = [0; CELLS];
    *table = [[0; MOST_INTERVALS]; MOST_DOSES];
    phases(shares, table, &setting, &sequence)
}

// A first class that is above the top rate, as a set, its W and P.
#[derive(Clone, Copy, PartialEq, Eq)]
pub struct TooFast {
    pub set: u64,
    pub weight: u64,
    pub time: u64,
}

// Refusal 9: "first class: W × top seconds above P × top grams", by exact products.
pub fn too_fast(o: &Order, t: &Tally) -> Option<TooFast>
    requires { Fit (as_order o.now) × ClassesOf (as_order o.now) t.now }
    ensures { AgainstTop (as_order o.now) result }
{
    if t.class == 0 {
        return None;
    }
    let weight = t.weight[0];
    let time = t.time[0];
    if excess(weight as u32, time as u32, o.top_grams, o.top_seconds) == 0 {
        return None;
    }
    Some(TooFast {
        set: first_set(&t.numbers, o.count),
        weight,
        time,
    })
}
