// What the clauses of "A plan stands" say (document 01), in specs/Tests; the first of them, of the records' kinds and zeros, is tested here.
#![tactic(auto)]

pub mod rows; // rows.rt: kinds and zeros

use steps::limits::MOST_DOSES;

// The plan as its own certificate: how many C records stand in front, and the class number of each dose, as the plan's own slots name it. The bytes are
// lent beside it, since half of the tests ask for no number. No fact of the type says that the numbers fit the bytes, or that an order has at most 24 doses
// and 48 instants: tests that come first show it, and `slot_rows`, `slots_fit` and `all_clear` promise for any count of classes, `class_rows`, `rates_fall`
// and `all_in_turn` take that count alone (docs/PROMISES.md).
#[derive(Clone, Copy)]
pub struct Certificate {
    pub classes: usize,
    pub numbers: [u32; MOST_DOSES],
}
