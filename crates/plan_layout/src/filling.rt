// What slots are laid from.
ghost use Rattle.std.specs.Prelude.{◌≡◌, ◌<◌, ◌≤◌};
ghost use Rattle.model.specs.Limits.{most_fans};
ghost use Rattle.plan_layout.specs.Held.{as_lane, share_at, lane_at};
ghost use Rattle.plan_layout.specs.Laying.{Filled};

use crate::{Lane, Tables};
use steps::limits::{CELLS, MOST_DOSES, MOST_INTERVALS};

// The tables; the share of dose k in interval j at k * 47 + j; and the fans that class i reserves in interval j, a row for each class. The shares fit
// in a week and on at most 8 fans.
#[derive(Clone, Copy)]
pub struct Filling<'a> {
    pub tables: &'a Tables,
    pub shares: &'a [u64; CELLS],
    pub reserved: &'a [[u8; MOST_INTERVALS]; MOST_DOSES],
    pub ghost filled: { Filled tables.now shares.now reserved.now },
}

impl Filling<'_> {
    // The share of dose k in class i and interval j: none where the dose is of another class.
    #[tactic(auto, unfolding(crate::specs::Held::share_at))]
    pub(crate) fn share(&self, i: usize, k: usize, j: usize) -> u64
        requires class { i < self.now.tables.now.classes }
        requires dose { k < self.now.tables.now.doses }
        requires interval { j < self.now.tables.now.intervals }
        ensures { result ≡ share_at self.now.tables.now self.now.shares.now i k j }
    {
        if self.tables.class_of[k] as usize == i + 1 {
            self.shares[k * MOST_INTERVALS + j]
        } else {
            0
        }
    }

    // Class i in interval j, above the fans below it.
    #[tactic(auto, unfolding(crate::specs::Held::lane_at))]
    pub(crate) fn lane(&self, i: usize, j: usize, below: u32) -> Lane
        requires class { i < self.now.tables.now.classes }
        requires interval { j < self.now.tables.now.intervals }
        requires fans { below ≤ most_fans }
        ensures { as_lane result ≡ lane_at self.now.tables.now i j below }
    {
        let t = self.tables;
        let start = t.instants[j];
        Lane {
            start,
            len: t.instants[j + 1] - start,
            weight: t.weight[i],
            time: t.time[i],
            class: i as u32 + 1,
            below,
        }
    }
}
