// Why judging refuses.
ghost use Rattle.std.specs.Prelude.{◌≡◌};
ghost use Rattle.classes.specs.Answer.{as_numbers};
ghost use Rattle.judge.specs.Verdict.{as_refusal};
ghost use Rattle.judge.specs.declared.refusal.Refusal.TheVariants as is;

use classes::{Numbers, TooFast};

// The order's refusal 2 to 8; "first class: W × top seconds above P × top grams"; "plan bytes don't stand".
#[derive(Clone, Copy, PartialEq, Eq)]
pub enum Refusal {
    Order(order::Refusal),
    TooFast(TooFast),
    Falls,
}

impl Refusal {
    // In numbers.
    pub fn numbers(self) -> Numbers
        ensures { as_numbers result ≡ as_refusal self }
    {
        match self {
            Refusal::Order(r) => Numbers::of(r.number(), r.place()),
            Refusal::TooFast(f) => f.numbers(),
            Refusal::Falls => Numbers::of(10, 0),
        }
    }
}

impl From<order::Refusal> for Refusal {
    ghost from_gives = { λ r e. e ≡ is.Order r };

    fn from(r: order::Refusal) -> Refusal {
        Refusal::Order(r)
    }
}
