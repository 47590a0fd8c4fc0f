// Slots laid by wrap-around into a lent buffer (document 01, "From classes to slots").
#![tactic(auto)]

mod filling; // filling.rt: what slots are laid from
mod lane; // lane.rt: a class in an interval

ghost use Rattle.std.specs.Prelude.{◌≡◌, map, [], ◌∷◌, ◌+◌, ◌*◌, ◌<◌, ◌≤◌, length};
ghost use Rattle.model.specs.Plans.{class_record, slot_record};
ghost use Rattle.model.specs.Layout.{cut, piece_slot, lane_slots, interval_slots, table_slots};
ghost use Rattle.records.specs.Held.{as_class, as_slot};
ghost use Rattle.plan_layout.specs.Held.{as_lane, share_at};
ghost use Rattle.plan_layout.specs.Laying.{ShareRoom, LaneRoom};
ghost use Rattle.plan_layout.specs.Growing.{table_in, Grows, Fits};

pub use filling::Filling;
pub use lane::Lane;
use records::{Class, RECORD_SIZE, Slot};
use steps::limits::{MOST_DOSES, MOST_INSTANTS};

// What shares are laid by: how many doses, classes and intervals; the instants that bound the intervals; W and P of each class; the number of each
// dose's class. The project uses no heap, so the arrays have room for all, and the counts stand beside them, W and P in an array each, as in the tally
// of classes that they come from; of the instants, whose crate is not known here, the array alone.
#[derive(Clone, Copy)]
pub struct Tables {
    pub doses: usize,
    pub classes: usize,
    pub intervals: usize,
    pub instants: [u32; MOST_INSTANTS],
    pub weight: [u32; MOST_DOSES],
    pub time: [u32; MOST_DOSES],
    pub class_of: [u32; MOST_DOSES],
}

// A plan that grows in a lent buffer, and how many records it has. That there is room is asked by each writer, which uses some of it up, and is no invariant.
#[derive(Drop)]
pub struct Plan<'a> {
    pub bytes: &'a mut [u8],
    pub records: usize,
}

impl Plan<'_> {
    // One C record.
    pub fn put_class(&mut self, c: Class)
        requires { Fits 1 self.old }
        ensures { Grows class_record (as_class c ∷ []) self.old self.new }
    {
        records::put_class(self.bytes, RECORD_SIZE * self.records, c);
        self.records += 1;
    }

    // One S record.
    fn put_slot(&mut self, s: Slot)
        requires { Fits 1 self.old }
        ensures { Grows slot_record (as_slot s ∷ []) self.old self.new }
    {
        records::put_slot(self.bytes, RECORD_SIZE * self.records, s);
        self.records += 1;
    }

    // The records of one share, x units laid from unit a of the line on: "A cut share gives two slots. No slot has length zero".
    fn lay_share(&mut self, l: &Lane, dose: u32, a: u64, x: u64)
        requires { ShareRoom (as_lane l.now) dose a x self.old.records (length self.old.bytes.now) }
        ensures { Grows slot_record (map (piece_slot (as_lane l.now)) (cut (l.now.len * l.now.weight) dose a x)) self.old self.new }
    {
        if x == 0 {
            return;
        }
        let c = (l.len as u64) * (l.weight as u64); // as it stands: the laws of a share speak of these two factors
        let fan = a / c;
        let low = a % c;
        if low + x <= c {
            self.put_slot(l.slot(dose, fan, low, low + x));
        } else {
            self.put_slot(l.slot(dose, fan, low, c));
            self.put_slot(l.slot(dose, fan + 1, 0, low + x - c));
        }
    }

    // The records of class i in interval j: "laid end to end in dose order".
    fn lay_class(&mut self, x: &Filling, l: &Lane, i: usize, j: usize)
        requires class { i < x.now.tables.now.classes }
        requires interval { j < x.now.tables.now.intervals }
        requires room { LaneRoom (as_lane l.now) (λ k. share_at x.now.tables.now x.now.shares.now i k j) x.now.tables.now.doses self.old.records (length self.old.bytes.now) }
        ensures { Grows slot_record (lane_slots (as_lane l.now) (λ k. share_at x.now.tables.now x.now.shares.now i k j) x.now.tables.now.doses) self.old self.new }
    {
        let mut a: u64 = 0;
        for k in 0..x.tables.doses {
            let share = x.share(i, k, j);
            self.lay_share(l, k as u32, a, share);
            a += share;
        }
    }

    // The records of interval j: "class 1 takes the lowest fans, class 2 the next, and so on".
    fn lay_interval(&mut self, x: &Filling, j: usize)
        requires interval { j < x.now.tables.now.intervals }
        requires room { Fits (length (interval_slots (table_in x.now) j)) self.old }
        ensures { Grows slot_record (interval_slots (table_in x.now) j) self.old self.new }
    {
        let mut below: u32 = 0;
        for i in 0..x.tables.classes {
            self.lay_class(x, &x.lane(i, j, below), i, j);
            below += u32::from(x.reserved[i][j]);
        }
    }

    // The records of all intervals: "slots by interval, fan, start".
    pub fn lay_all(&mut self, x: &Filling)
        requires { Fits (length (table_slots (table_in x.now))) self.old }
        ensures { Grows slot_record (table_slots (table_in x.now)) self.old self.new }
    {
        for j in 0..x.tables.intervals {
            self.lay_interval(x, j);
        }
    }
}
