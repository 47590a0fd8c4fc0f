// "Shares that are short of the needs are raised along chains" (document 01, "From classes to slots"). One array holds the share of dose d in
// interval j at d * 47 + j; rooms are laid out the same way. A station is a dose, 0 to 23, or an interval, 24 to 70; a place more rounds the
// marks up to whole words, which copies them faster.
#![tactic(auto)]

ghost use Rattle.std.specs.Prelude.{◌≡◌, ℕ, ◌+◌, ◌-◌, ◌*◌, ◌^◌, ◌<◌, ◌≤◌, slice_index};
ghost use Rattle.model.specs.Limits.{cells, most_doses, most_intervals};
ghost use Rattle.model.specs.Sets.{sum};
ghost use Rattle.class_chains.specs.Chains.{cell, got, given, Bounded, Written, FromDose, FromInterval};

use steps::limits::{CELLS, MOST_DOSES, MOST_INTERVALS, MOST_MARKS};

// COUNT cells from `from` on, STEP apart, added up: a row of the array, or a column.
fn total<const STEP: usize, const COUNT: usize>(shares: &[u64; CELLS], from: usize) -> u64
    requires inside { (i : ℕ) → i < COUNT → i * STEP + from < cells }
    requires fits { sum COUNT (λ i. slice_index shares.now (i * STEP + from)) < 2 ^ 64 }
    ensures { result ≡ sum COUNT (λ i. slice_index shares.now (i * STEP + from)) }
{
    let mut sum = 0;
    for i in 0..COUNT {
        sum += shares[i * STEP + from];
    }
    sum
}

// What is given out in interval j.
pub fn interval_total(shares: &[u64; CELLS], j: usize) -> u64
    requires { (j < most_intervals) × (given shares.now j < 2 ^ 64) }
    ensures { result ≡ given shares.now j }
{
    total::<MOST_INTERVALS, MOST_DOSES>(shares, j)
}

// What dose d has in all intervals.
pub fn dose_total(shares: &[u64; CELLS], d: usize) -> u64
    requires { (d < most_doses) × (got shares.now d < 2 ^ 64) }
    ensures { result ≡ got shares.now d }
{
    total::<1, MOST_INTERVALS>(shares, d * MOST_INTERVALS)
}

// The shares of a candidate while they are found, the rooms of doses in intervals, and the reserved time that each interval holds.
#[derive(Drop)]
pub struct Fill<'a> {
    pub shares: &'a mut [u64; CELLS],
    pub rooms: &'a [u64; CELLS],
    pub holds: &'a [u64; MOST_INTERVALS],
    pub ghost fits: { (i : ℕ) → slice_index rooms.now i < 2 ^ 64 }, // what its type says, and the check doesn't of an array in a field
    pub ghost bounded: { Bounded rooms.now holds.now shares.now },
}

impl Fill<'_> {
    ghost use Rattle.class_chains.specs.Fills.{Refilled};

    // What dose d could take more in interval j by its room there.
    pub fn room(&self, d: usize, j: usize) -> u64
        requires { (d < most_doses) × (j < most_intervals) }
        ensures { result + cell self.now.shares.now d j ≡ cell self.now.rooms.now d j }
    {
        let shares = &*self.shares; // borrowed anew: the check reads no element behind two references
        let at = d * MOST_INTERVALS + j;
        self.rooms[at] - shares[at]
    }

    // What interval j has left of its reserved time.
    pub fn spare(&self, j: usize) -> u64
        requires { j < most_intervals }
        ensures { result + given self.now.shares.now j ≡ slice_index self.now.holds.now j }
    {
        self.holds[j] - interval_total(self.shares, j)
    }

    // Dose d takes `more` in interval j.
    pub fn take(&mut self, d: usize, j: usize, more: u64)
        requires { (d < most_doses) × (j < most_intervals) × (cell self.old.shares.now d j + more ≤ cell self.old.rooms.now d j) × (given self.old.shares.now j + more ≤ slice_index self.old.holds.now j) }
        ensures refilled { Refilled self.old self.new }
        ensures taken { Written d j (cell self.old.shares.now d j + more) self.old.shares.now self.new.shares.now }
    {
        let shares = &mut *self.shares; // borrowed anew: of an array in a field the check doesn't know the length
        shares[d * MOST_INTERVALS + j] += more;
    }

    // It gives `less` back.
    fn give_back(&mut self, d: usize, j: usize, less: u64)
        requires { (d < most_doses) × (j < most_intervals) × (less ≤ cell self.old.shares.now d j) }
        ensures refilled { Refilled self.old self.new }
        ensures given_back { Written d j (cell self.old.shares.now d j - less) self.old.shares.now self.new.shares.now }
    {
        let shares = &mut *self.shares; // as in `take`
        shares[d * MOST_INTERVALS + j] -= less;
    }

    // "a chain goes from a dose to an interval and from an interval back to a dose": for dose d, up to `want` more, "leaving a dose by an
    // interval where its share is below L × W". What is less than `least`, a number from 1 on that is reckoned with (so no NonZero), does not
    // count: thresholds that fall keep the chains few. Gives what was pushed along the chain, or 0 where there is none (no Option: callers add
    // it, and a promise speaks of a 0 as of any number); the stations seen on the way are marked.
    #[cycle(from_dose_from_interval)]
    pub fn from_dose(
        &mut self,
        seen: &mut [bool; MOST_MARKS],
        d: usize,
        want: u64,
        least: u64,
    ) -> u64
        requires { (d < most_doses) × (1 ≤ least) }
        ensures refilled { Refilled self.old self.new }
        ensures searched { FromDose self.old.rooms.now self.old.holds.now least d want seen.old self.old.shares.now result seen.new self.new.shares.now }
    {
        if want < least || seen[d] {
            return 0;
        }
        seen[d] = true;
        for j in 0..MOST_INTERVALS {
            let room = self.room(d, j);
            let w = want.min(room);
            if w < least || seen[MOST_DOSES + j] {
                continue;
            }
            let a = self.from_interval(seen, j, w, least);
            if 0 < a {
                self.take(d, j, a);
                return a;
            }
        }
        0
    }

    // In interval j, up to `want`: from its spare time, or from a dose there that finds as much elsewhere, "an interval by a dose with a share
    // above zero there". The number of stations not seen falls at each call.
    #[cycle(from_dose_from_interval)]
    fn from_interval(
        &mut self,
        seen: &mut [bool; MOST_MARKS],
        j: usize,
        want: u64,
        least: u64,
    ) -> u64
        requires { (j < most_intervals) × (1 ≤ least) }
        ensures refilled { Refilled self.old self.new }
        ensures searched { FromInterval self.old.rooms.now self.old.holds.now least j want seen.old self.old.shares.now result seen.new self.new.shares.now }
    {
        if want < least || seen[MOST_DOSES + j] {
            return 0;
        }
        seen[MOST_DOSES + j] = true;
        let spare = self.spare(j);
        if least <= spare {
            return want.min(spare);
        }
        for d in 0..MOST_DOSES {
            let w = want.min(self.shares[d * MOST_INTERVALS + j]);
            if w < least || seen[d] {
                continue;
            }
            let a = self.from_dose(seen, d, w, least);
            if 0 < a {
                self.give_back(d, j, a);
                return a;
            }
        }
        0
    }
}
