// An order in arrays, and what a set of its doses weighs and opens (document 01, "From doses to classes").
#![tactic(auto)]

mod arrays; // arrays.rt: an order's doses and intervals in arrays

ghost use Rattle.std.specs.Prelude.{◌≡◌, false, ℕ, ◌+◌, ◌*◌, ◌<◌, ◌≤◌, get_or};
ghost use Rattle.model.specs.Limits.{most_doses, most_instants, most_intervals};
ghost use Rattle.model.specs.Sets.{sum, weight};
ghost use Rattle.model.specs.Sets as sets;
ghost use Rattle.model.specs.Classes.{set_number};
ghost use Rattle.interval.specs.Held.{span_in, active_in};
ghost use Rattle.measure.specs.Arrays.{set_of, sets_of, grams_of, intervals_of, Below};
ghost use Rattle.measure.specs.Measure.{count_in, Opens};

pub use arrays::{Setting, active_in_order, grams_in, lens_in};
use interval::{Instants, interval_count, span};
use order::Order;
use std::array;
use steps::limits::{MOST_DOSES, MOST_INTERVALS};
use steps::on;

// The doses of class i, by the number that each dose's class has.
pub fn set_of(numbers: &[u32; MOST_DOSES], i: usize) -> [bool; MOST_DOSES]
    requires { i < most_doses }
    ensures { (k : ℕ) → k < most_doses → get_or result k false ≡ sets_of numbers.now i k }
{
    array::from_fn(|k| numbers[k] as usize == i + 1)
}

// "the first class as a number with bit i for dose i".
pub fn first_set(numbers: &[u32; MOST_DOSES], doses: usize) -> u64
    requires { doses ≤ most_doses }
    ensures { result ≡ set_number doses (sets_of numbers.now 0) }
{
    let mut sum = 0;
    let mut bit = 1;
    for k in 0..doses {
        sum += on(numbers[k] == 1, bit);
        bit *= 2;
    }
    sum
}

// "W(A) is the sum of grams of A."
pub fn weight_of(o: &Order, set: &[bool; MOST_DOSES]) -> u64
    requires { o.now.count ≤ most_doses }
    ensures { result ≡ weight o.now.count (grams_of o.now) (set_of set.now) }
{
    let mut sum = 0;
    for k in 0..o.count {
        sum += on(set[k], u64::from(o.dose(k).grams));
    }
    sum
}

// How many doses are in the set.
pub fn size_of(doses: usize, set: &[bool; MOST_DOSES]) -> u64
    requires { doses ≤ most_doses }
    ensures { (result ≡ weight doses (λ k. 1) (set_of set.now)) × (result ≤ doses) }
{
    let mut sum = 0;
    for k in 0..doses {
        sum += on(set[k], 1);
    }
    sum
}

// The active doses so far, interval by interval, with dose k more. Not by `interval::active`: the dose is read once for all intervals.
fn count_dose(counts: &mut [u64; MOST_INTERVALS], o: &Order, s: &Instants, k: usize)
    requires { (k < most_doses) × (s.now.count ≤ most_instants) × ((j : ℕ) → j < intervals_of s.now → get_or counts.old j 0 < most_doses) }
    ensures { (j : ℕ) → j < intervals_of s.now → get_or counts.new j 0 ≡ get_or counts.old j 0 + sets.on (active_in o.now s.now k j) 1 }
{
    let dose = o.dose(k);
    for j in 0..interval_count(s) {
        let open = dose.release <= s.at[j] && s.at[j + 1] <= dose.deadline;
        counts[j] += on(open, 1);
    }
}

// "(active doses of A)", for each interval. A dose outside the set costs nothing: the classes of a plan are judged by this.
fn active_row(o: &Order, s: &Instants, set: &[bool; MOST_DOSES]) -> [u64; MOST_INTERVALS]
    requires { (o.now.count ≤ most_doses) × (s.now.count ≤ most_instants) }
    ensures { (j : ℕ) → j < intervals_of s.now → (get_or result j 0 ≡ count_in o.now s.now set.now j) × (get_or result j 0 ≤ most_doses) }
{
    let mut counts = [0; MOST_INTERVALS];
    for k in 0..o.count {
        if set[k] {
            count_dose(&mut counts, o, s, k);
        }
    }
    counts
}

// "the smaller of (active doses of A) and (fans − fans reserved by earlier classes)", for each interval.
pub fn open_fans(
    o: &Order,
    s: &Instants,
    set: &[bool; MOST_DOSES],
    free: &[u64; MOST_INTERVALS],
) -> [u64; MOST_INTERVALS]
    requires { (o.now.count ≤ most_doses) × (s.now.count ≤ most_instants) }
    ensures { Opens o.now s.now set.now free.now result }
{
    let counts = active_row(o, s, set);
    let mut reserved = [0; MOST_INTERVALS];
    for j in 0..interval_count(s) {
        reserved[j] = counts[j].min(free[j]);
    }
    reserved
}

// "P(A) its open fan time": "the sum over intervals of length × the smaller of" the two. That no interval reserves more than 24 is asked here and where
// such a row is used, and no type says it: it would be taken apart at every interval.
pub fn fan_time(s: &Instants, reserved: &[u64; MOST_INTERVALS]) -> u64
    requires { (s.now.count ≤ most_instants) × Below most_doses reserved.now }
    ensures { result ≡ sum (intervals_of s.now) (λ j. span_in s.now j * get_or reserved.now j 0) }
{
    let mut sum = 0;
    for j in 0..interval_count(s) {
        sum += u64::from(span(s, j)) * reserved[j];
    }
    sum
}
