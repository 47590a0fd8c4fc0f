// A class in an interval.
ghost use Rattle.plan_layout.specs.Ready.{LaneReady};

use records::Slot;

// Where it starts and how long it is, the class's W, P and number, and the fans below its own. It lies in the week, on fans up to the eighth.
#[derive(Clone, Copy)]
pub struct Lane {
    pub start: u32,
    pub len: u32,
    pub weight: u32,
    pub time: u32,
    pub class: u32,
    pub below: u32,
    pub ghost ready: { LaneReady (record { start = start; len = len; weight = weight; time = time; class = class; below = below }) },
}

impl Lane {
    ghost use Rattle.std.specs.Prelude.{◌≡◌, ◌*◌, ◌≤◌};
    ghost use Rattle.model.specs.Layout.{piece_slot};
    ghost use Rattle.records.specs.Held.{as_slot};
    ghost use Rattle.plan_layout.specs.Held.{as_lane};

    // The slot from unit low up to unit high of a fan's stretch: "A moment is a tick plus part/W, part below W."
    #[tactic(auto, using(crate::proofs::Shares::tick), unfolding(model::specs::Layout::piece_slot))]
    pub(crate) fn slot(&self, dose: u32, fan: u64, low: u64, high: u64) -> Slot
        requires { (fan ≤ 9) × (low ≤ self.now.len * self.now.weight) × (high ≤ self.now.len * self.now.weight) }
        ensures { as_slot result ≡ piece_slot (as_lane self.now) (record { fan = fan; dose = dose; low = low; high = high }) }
    {
        let w = u64::from(self.weight);
        Slot {
            fan: self.below + fan as u32 + 1,
            dose,
            start_tick: self.start + (low / w) as u32,
            start_part: (low % w) as u32,
            end_tick: self.start + (high / w) as u32,
            end_part: (high % w) as u32,
            weight: self.weight,
            time: self.time,
            class: self.class,
        }
    }
}
