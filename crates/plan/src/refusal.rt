// Why an order is not planned (document 01, refusals 1 to 9; document 02, C-14: 15).
ghost use Rattle.std.specs.Prelude.{◌≡◌};
ghost use Rattle.classes.specs.Answer.{as_numbers};
ghost use Rattle.plan.specs.Answered.{answer_of};

use classes::{Numbers, TooFast};

// "1 plan buffer under 47,392 bytes"; what reading the order refuses, 2 to 8 and 15; "9 first class: W × top seconds above P × top grams".
#[derive(Clone, Copy, PartialEq, Eq)]
pub enum Refusal {
    NoRoom,
    Order(order::Refusal),
    TooFast(TooFast),
}

impl Refusal {
    // In numbers.
    pub fn numbers(self) -> Numbers
        ensures { as_numbers result ≡ answer_of self }
    {
        match self {
            Refusal::NoRoom => Numbers::of(1, 0),
            Refusal::Order(r) => Numbers::of(r.number(), r.place()),
            Refusal::TooFast(f) => f.numbers(),
        }
    }
}
