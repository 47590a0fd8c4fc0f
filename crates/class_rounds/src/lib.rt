// The rounds that find the next class, and the shares that a candidate asks for (document 01, "From doses to classes", "From classes to slots").
#![tactic(auto)]

ghost use Rattle.std.specs.Prelude.{◌≡◌, false, ◌&&◌, ℕ, ◌<◌, ◌≤◌, ltb, get_or};
ghost use Rattle.model.specs.Limits.{most_weight, most_doses};
ghost use Rattle.model.specs.Sets.{Nonempty};
ghost use Rattle.measure.specs.Arrays.{set_of, row_of, Below};
ghost use Rattle.measure.specs.Held.{as_setting};
ghost use Rattle.class_rounds.specs.Rounds.{NextOf};
ghost use Rattle.class_rounds.specs.Candidates.{Rooms, Holds, Needs, RoundOf};

use measure::{Setting, fan_time, open_fans, weight_of};
use std::array;
use steps::limits::{CELLS, MOST_DOSES, MOST_INTERVALS, MOST_MARKS};
use steps::on;

// "Its share in an interval of length L is at most L × W units, only where it is active": the rooms of all doses, in a lent array; none for
// doses outside the set.
fn lay_rooms(rooms: &mut [u64; CELLS], setting: &Setting, set: &[bool; MOST_DOSES], w: u64)
    requires { w ≤ most_weight }
    ensures { Rooms setting.now.active setting.now.lens set.now w rooms.new }
{
    for k in 0..MOST_DOSES {
        for j in 0..MOST_INTERVALS {
            let at = k * MOST_INTERVALS + j;
            let most = setting.lens[j] * w;
            rooms[at] = on(set[k], on(setting.active[at], most));
        }
    }
}

// "its reserved fans × L × W".
fn holds_of(setting: &Setting, reserved: &[u64; MOST_INTERVALS], w: u64) -> [u64; MOST_INTERVALS]
    requires { Below most_doses reserved.now × (w ≤ most_weight) }
    ensures { Holds setting.now.lens reserved.now w result }
{
    array::from_fn(|j| reserved[j] * (setting.lens[j] * w))
}

// "A dose of w grams in a class with W and P needs w × P units."
fn needs_of(setting: &Setting, set: &[bool; MOST_DOSES], p: u64) -> [u64; MOST_DOSES]
    requires { p ≤ 1000000000 }
    ensures { Needs setting.now.grams set.now p result }
{
    array::from_fn(|k| on(set[k], u64::from(setting.grams[k]) * p))
}

// The doses of the set that are dead: no chain leads out of them.
fn dead_part(dead: &[bool; MOST_MARKS], set: &[bool; MOST_DOSES]) -> [bool; MOST_DOSES]
    ensures { (k : ℕ) → get_or result k false ≡ (get_or dead.now k false && get_or set.now k false) }
{
    array::from_fn(|k| dead[k] && set[k])
}

// The marks of doses: what stands in the array past them marks none.
fn doses_of(marks: &[bool; MOST_DOSES], doses: usize) -> [bool; MOST_DOSES]
    ensures { (k : ℕ) → k < most_doses → get_or result k false ≡ (ltb k doses && get_or marks.now k false) }
{
    array::from_fn(|k| k < doses && marks[k])
}

// The next class: its doses, W and P, and the fans that it reserves.
#[derive(Clone, Copy)]
pub struct Class {
    pub members: [bool; MOST_DOSES],
    pub weight: u64,
    pub time: u64,
    pub reserved: [u64; MOST_INTERVALS],
}

// What a candidate comes to: the class, where its needs are met, and else the next candidate. No Result: neither is a failure.
#[derive(Clone, Copy)]
enum Round {
    Found(Class),
    Onward([bool; MOST_DOSES]),
}

// One round: the candidate's shares in x.
fn try_candidate(
    x: &mut [u64; CELLS],
    setting: &Setting,
    free: &[u64; MOST_INTERVALS],
    set: &[bool; MOST_DOSES],
    sequence: &[usize; MOST_DOSES],
) -> Round
    ensures { RoundOf (as_setting setting.now) (row_of free.now) (set_of set.now) x.new result }
{
    let w = weight_of(&setting.order, set);
    let reserved = open_fans(&setting.order, &setting.instants, set, free);
    let p = fan_time(&setting.instants, &reserved);
    let mut rooms = [0u64; CELLS];
    lay_rooms(&mut rooms, setting, set, w);
    let holds = holds_of(setting, &reserved, w);
    let needs = needs_of(setting, set, p);
    let dead = class_shares::find_shares(x, &rooms, &holds, &needs, *sequence);
    let part = dead_part(&dead, set);
    if class_shares::needs_met(x, &needs) {
        Round::Found(Class {
            members: *set,
            weight: w,
            time: p,
            reserved,
        })
    } else {
        Round::Onward(part)
    }
}

// "The next class is the set with the greatest W/P among nonempty sets of remaining doses": rounds, from all of them to a part whose needs are
// met. Its shares are in x.
pub fn next_class(
    x: &mut [u64; CELLS],
    setting: &Setting,
    free: &[u64; MOST_INTERVALS],
    remaining: &[bool; MOST_DOSES],
    sequence: &[usize; MOST_DOSES],
) -> Class
    requires { Nonempty setting.now.order.count (set_of remaining.now) }
    ensures { NextOf (as_setting setting.now) (row_of free.now) (set_of remaining.now) result x.new }
{
    let mut set = doses_of(remaining, setting.order.count);
    loop {
        match try_candidate(x, setting, free, &set, sequence) {
            Round::Found(class) => return class,
            Round::Onward(next) => set = next,
        }
    }
}
