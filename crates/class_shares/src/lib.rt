// Shares of doses in intervals, raised along chains (document 01, "From classes to slots").
#![tactic(auto)]

ghost use Rattle.std.specs.Prelude.{◌≡◌, ℕ, ◌+◌, ◌<◌, ◌≤◌, slice_index};
ghost use Rattle.model.specs.Limits.{most_doses, most_intervals};
ghost use Rattle.class_chains.specs.Chains.{got};
ghost use Rattle.class_shares.specs.Share.{DoseRaised, Took, Raised, Met};

use class_chains::{Fill, dose_total};
use steps::limits::{CELLS, MOST_DOSES, MOST_INTERVALS, MOST_MARKS};

// Shares that are found, and what each dose needs: none has more.
#[derive(Drop)]
struct Sharing<'a> {
    fill: Fill<'a>,
    needs: &'a [u64; MOST_DOSES],
    ghost needed: { (k : ℕ) → k < most_doses → got fill.shares.now k ≤ slice_index needs.now k },
}

impl Sharing<'_> {
    ghost use Rattle.class_shares.specs.Sharings.{Reshared};

    // What dose d is short of.
    fn missing(&self, d: usize) -> u64
        requires { d < most_doses }
        ensures { result + got self.now.fill.shares.now d ≡ slice_index self.now.needs.now d }
    {
        self.needs[d] - dose_total(self.fill.shares, d)
    }

    // Dose d is raised until its need is met, but for less than `least` (as in `from_dose`), or no chain is left: then what was seen is dead too.
    fn raise_dose(&mut self, dead: &mut [bool; MOST_MARKS], d: usize, least: u64)
        requires { (d < most_doses) × (1 ≤ least) }
        ensures reshared { Reshared self.old self.new }
        ensures raised { DoseRaised self.old.fill.rooms.now self.old.fill.holds.now least d (slice_index self.old.needs.now d) dead.old self.old.fill.shares.now dead.new self.new.fill.shares.now }
    {
        // What needs less than that is not short of it: a place without a dose of the set, and a small dose in the first passes.
        if self.needs[d] < least {
            return;
        }
        loop {
            let miss = self.missing(d);
            if miss < least {
                return;
            }
            let mut seen = *dead;
            let a = self.fill.from_dose(&mut seen, d, miss, least);
            if a == 0 {
                *dead = seen;
                return;
            }
        }
    }

    // Every dose is raised, and the dead stations are answered: they are not searched again.
    fn raise_pass(&mut self, least: u64) -> [bool; MOST_MARKS]
        requires { 1 ≤ least }
        ensures reshared { Reshared self.old self.new }
        ensures raised { Raised self.old.fill.rooms.now self.old.fill.holds.now self.old.needs.now least most_doses result self.new.fill.shares.now }
    {
        let mut dead = [false; MOST_MARKS];
        for d in 0..MOST_DOSES {
            self.raise_dose(&mut dead, d, least);
        }
        dead
    }

    // Passes with thresholds that fall to 1. The last is document 01's search: "no chain leads from a dose short of its need to an interval
    // with spare reserved time".
    fn raise(&mut self, top: u64) -> [bool; MOST_MARKS]
        requires { 1 ≤ top }
        ensures reshared { Reshared self.old self.new }
        ensures raised { Raised self.old.fill.rooms.now self.old.fill.holds.now self.old.needs.now 1 most_doses result self.new.fill.shares.now }
    {
        let mut least = top;
        let mut dead = self.raise_pass(least);
        while 1 < least {
            least = (least - 1) / 16 + 1;
            dead = self.raise_pass(least);
        }
        dead
    }

    // Dose d, which misses so much, takes in interval j what it has room for and finds. Gives back what it misses now.
    fn first_share(&mut self, d: usize, j: usize, miss: u64) -> u64
        requires { (d < most_doses) × (j < most_intervals) × (got self.old.fill.shares.now d + miss ≤ slice_index self.old.needs.now d) }
        ensures reshared { Reshared self.old self.new }
        ensures took { Took self.old.fill.rooms.now self.old.fill.holds.now d miss self.old.fill.shares.now result self.new.fill.shares.now }
    {
        let room = self.fill.room(d, j);
        if room == 0 {
            return miss;
        }
        let a = miss.min(room).min(self.fill.spare(j));
        self.fill.take(d, j, a);
        miss - a
    }

    // Dose d takes what it finds, earliest intervals first; a number past the doses takes nothing.
    fn first_shares(&mut self, d: usize)
        ensures { Reshared self.old self.new }
    {
        if MOST_DOSES <= d {
            return;
        }
        let mut miss = self.missing(d);
        for j in 0..MOST_INTERVALS {
            if miss == 0 {
                return;
            }
            miss = self.first_share(d, j, miss);
        }
    }

    // The most that a dose is short of, or 1: above it no pass would push anything.
    fn largest_shortage(&self) -> u64
        ensures { 1 ≤ result }
    {
        let mut most = 1;
        for k in 0..MOST_DOSES {
            most = most.max(self.missing(k));
        }
        most
    }
}

// Shares that no chain raises, and the dead stations: a first fill, dose by dose in the sequence that is given, then chains.
pub fn find_shares<'a>(
    shares: &'a mut [u64; CELLS],
    rooms: &'a [u64; CELLS],
    holds: &'a [u64; MOST_INTERVALS],
    needs: &'a [u64; MOST_DOSES],
    sequence: [usize; MOST_DOSES],
) -> [bool; MOST_MARKS]
    ensures { Raised rooms.now holds.now needs.now 1 most_doses result shares.new }
{
    shares.fill(0);
    let fill = Fill {
        shares,
        rooms,
        holds,
    };
    let mut sharing = Sharing { fill, needs };
    for d in sequence {
        sharing.first_shares(d);
    }
    let top = sharing.largest_shortage();
    sharing.raise(top)
}

// Whether every dose has what it needs.
pub fn needs_met(shares: &[u64; CELLS], needs: &[u64; MOST_DOSES]) -> bool
    requires { (k : ℕ) → k < most_doses → got shares.now k ≤ slice_index needs.now k }
    ensures { Met needs.now shares.now result }
{
    (0..MOST_DOSES).all(|k| dose_total(shares, k) == needs[k])
}
