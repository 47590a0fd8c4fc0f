// A dose's point at a tick (document 01, "The drawn line"; Dosing by the whole second, document 02, C-12), and the pen over it.
#![tactic(auto)]

mod line; // line.rt: a dose's line in plan bytes

ghost use Rattle.std.specs.Prelude.{◌≡◌, ◌+◌, min};
ghost use Rattle.model.specs.Limits.{week};
ghost use Rattle.model.specs.Answers.{Draws, Moves};
ghost use Rattle.classes.specs.Answer.{as_numbers};
ghost use Rattle.draw.specs.declared.Refusal.TheVariants.{Plan};
ghost use Rattle.draw.specs.Drawing.{as_drawn, as_refusal, as_pen};

use classes::Numbers;
pub use line::Line;
use steps::limits::{MOST_BAY, WEEK};

// "one of four states"; "Dosing carries the fan number"
#[derive(Clone, Copy, Debug, PartialEq, Eq)]
pub enum State {
    Finished,
    Shut,
    Idle,
    Dosing(u32),
}

// "A point is an amount together with one of four states"
#[derive(Clone, Copy, Debug, PartialEq, Eq)]
pub struct Point {
    pub amount: u32,
    pub state: State,
}

// "Drawing checks 2 to 9 in the same order, then 10, 11, 12": what the judge refuses, 11 "no such dose", 12 "tick over 604,800".
#[derive(Clone, Copy)]
pub enum Refusal {
    Plan(judge::Refusal),
    NoDose,
    NoTick,
}

// "it holds a dose and a tick"
#[derive(Clone, Copy)]
pub struct Pen {
    pub dose: usize,
    pub tick: u32,
}

impl Refusal {
    // In numbers.
    pub fn numbers(self) -> Numbers
        ensures { as_numbers result ≡ as_refusal self }
    {
        match self {
            Refusal::Plan(judged) => judged.numbers(),
            Refusal::NoDose => Numbers::of(11, 0),
            Refusal::NoTick => Numbers::of(12, 0),
        }
    }
}

impl From<judge::Refusal> for Refusal {
    ghost from_gives = { λ r e. e ≡ Plan r };

    fn from(r: judge::Refusal) -> Refusal {
        Refusal::Plan(r)
    }
}

// A dose's point at a tick: "Drawing checks 2 to 9 in the same order, then 10, 11, 12". The order that was judged is read again.
pub fn point_at(order: &[u8], plan: &[u8], dose: usize, tick: u32) -> Result<Point, Refusal>
    ensures { Draws order.now plan.now dose tick (as_drawn result) }
{
    judge::judge(order, plan)?;
    let o = order::read_order(MOST_BAY, order).unwrap();
    if o.count <= dose {
        return Err(Refusal::NoDose);
    }
    if WEEK < tick {
        return Err(Refusal::NoTick);
    }
    Ok(Line::of(plan, dose).point_at(&o, tick))
}

// The tick behind a pen's; from 604,800 on it is one that no drawing accepts.
fn next_tick(tick: u32) -> u32
    ensures { result ≡ min tick week + 1 }
{
    tick.min(WEEK) + 1
}

// "The pen is lent and moved on by one tick"; "its answer is the point at the new tick". "12 comes of the pen's tick before it moves", and a
// refusal leaves the pen as it was.
pub fn advance(order: &[u8], plan: &[u8], pen: &mut Pen) -> Result<Point, Refusal>
    ensures { Moves order.now plan.now (as_pen pen.old) (as_drawn result) (as_pen pen.new) }
{
    let next = next_tick(pen.tick);
    let p = point_at(order, plan, pen.dose, next)?;
    pen.tick = next;
    Ok(p)
}
