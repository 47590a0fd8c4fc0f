// What one order of the stream comes to.
ghost use Rattle.std.specs.Prelude.{◌≡◌, ◌≤◌, sum};
ghost use Rattle.model.specs.Season.{Comes, FirstRate};
ghost use Rattle.model.specs.Season as season;
ghost use Rattle.model.proofs.Orders.{Fit};
ghost use Rattle.order.specs.Held.{as_order};
ghost use Rattle.classes.specs.Answer.{ClassesOf};
ghost use Rattle.season.specs.declared.outcome.Refused.TheVariants as is;
ghost use Rattle.season.specs.Held.{as_rate, as_outcome, number_of, OutcomeFits, OrderComes, most_of_order};

use classes::{Tally, classes_of, too_fast};
use order::{Order, read_order};
use steps::excess;
use steps::limits::{CELLS, MOST_BAY, MOST_DOSES, MOST_INTERVALS};

// W and P of a class.
#[derive(Clone, Copy)]
pub struct Rate {
    pub weight: u32,
    pub time: u32,
}

impl Rate {
    // "0 and 1 if there is none"
    pub(crate) const NONE: Rate = Rate { weight: 0, time: 1 };

    // "the greatest first-class W and P, the earliest on a tie": the later one only if it is above, by exact products. No `Ord`: 1/2 and 2/4 tie and
    // are not equal.
    pub(crate) fn greater(self, later: Rate) -> Rate
        ensures { as_rate result ≡ season.greater (as_rate self) (as_rate later) }
    {
        if excess(later.weight, later.time, self.weight, self.time) == 0 {
            return self;
        }
        later
    }
}

// An order that is accepted: its grams, its fan-seconds and its first class.
#[derive(Clone, Copy)]
pub struct Accepted {
    pub grams: u64,
    pub seconds: u64,
    pub first: Rate,
}

// An order that is refused: by its reading, or since its first class is above the top rate. That the number has a count (`OutcomeFits`) is a clause
// and no ghost field, which an enum has none of: of all that `order::Refusal` may say, reading with every bay open says 2 to 8.
#[derive(Clone, Copy)]
pub enum Refused {
    Order(order::Refusal),
    TooFast,
}

impl From<order::Refusal> for Refused {
    ghost from_gives = { λ refusal refused. refused ≡ is.Order refusal };

    fn from(refusal: order::Refusal) -> Refused {
        Refused::Order(refusal)
    }
}

impl Refused {
    pub(crate) fn number(self) -> u32
        ensures { result ≡ number_of self }
    {
        match self {
            Refused::Order(refusal) => refusal.number(),
            Refused::TooFast => 9,
        }
    }
}

// What the W or the P of classes come to.
fn together(numbers: &[u64]) -> u64
    requires { sum numbers.now ≤ most_of_order }
    ensures { result ≡ sum numbers.now }
{
    numbers.iter().sum()
}

// The rate of the first class.
fn first_of(o: &Order, t: &Tally) -> Rate
    requires { Fit (as_order o.now) × ClassesOf (as_order o.now) t.now }
    ensures { FirstRate (as_order o.now) (as_rate result) }
{
    if t.class == 0 {
        return Rate::NONE;
    }
    Rate {
        weight: t.weight[0] as u32,
        time: t.time[0] as u32,
    }
}

// An order that was read: 9, or its figures by its classes. No plan is written: its slots would take the P of its classes.
fn classed(o: &Order) -> Result<Accepted, Refused>
    requires { Fit (as_order o.now) }
    ensures { OrderComes (as_order o.now) (as_outcome result) × OutcomeFits result }
{
    let mut shares = [0u64; CELLS];
    let mut table = [[0u8; MOST_INTERVALS]; MOST_DOSES];
    let t = classes_of(o, &mut shares, &mut table);
    if too_fast(o, &t).is_some() {
        return Err(Refused::TooFast);
    }
    Ok(Accepted {
        grams: together(&t.weight[..t.class]),
        seconds: together(&t.time[..t.class]),
        first: first_of(o, &t),
    })
}

// The bytes of an order: "Trial bays are read as in judging, without 15."
pub fn order_comes(order: &[u8]) -> Result<Accepted, Refused>
    ensures { Comes order.now (as_outcome result) × OutcomeFits result }
{
    let o = read_order(MOST_BAY, order)?;
    classed(&o)
}
