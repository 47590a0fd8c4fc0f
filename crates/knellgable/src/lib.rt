// The six entry points: numbers and byte slices only. Each hands on what the proved function answers; `knellgable_c` exports them for C and
// Rust, and include/knellgable.h says the promises in words.
#![tactic(auto)]

mod answers; // answers.rt: what the library answers, in plain numbers

ghost use Rattle.model.specs.Answers.{Plans, Judges, Lays};
ghost use Rattle.model.specs.Season.{AddsUp};
ghost use Rattle.knellgable.specs.Exported.{as_planned, as_judged, as_laid, as_added_up, DrawsNumbers, MovesNumbers};

use draw::Pen;
use steps::limits::ORDER_NUMBERS;

// What the functions answer are flat numbers, since C reads them: it can read no enum, nor a struct that holds one.

// What planning answers: "Fields not meant are 0".
#[repr(C)]
#[derive(Clone, Copy)]
pub struct Planned {
    pub number: u32,
    pub place: usize,
    pub set: u64,
    pub weight: u64,
    pub time: u64,
    pub classes: usize,
    pub slots: usize,
}

// What judging answers: number and place, and of 9 the set, its W and P.
#[repr(C)]
#[derive(Clone, Copy)]
pub struct Judged {
    pub number: u32,
    pub place: usize,
    pub set: u64,
    pub weight: u64,
    pub time: u64,
}

// What drawing answers: the same, and the point, its state as a number: 0 Finished, 1 Shut, 2 Idle, 3 Dosing with its fan.
#[repr(C)]
#[derive(Clone, Copy)]
pub struct Drawn {
    pub number: u32,
    pub place: usize,
    pub set: u64,
    pub weight: u64,
    pub time: u64,
    pub amount: u32,
    pub state: u32,
    pub fan: u32,
}

// What laying a log answers: the same, and the figures: metered and risen in 1/1024 gram, and the seconds unknown.
#[repr(C)]
#[derive(Clone, Copy)]
pub struct Laid {
    pub number: u32,
    pub place: usize,
    pub set: u64,
    pub weight: u64,
    pub time: u64,
    pub metered: u64,
    pub risen: u64,
    pub unknown: u32,
}

// What adding up a stream answers: 0 or 16 and its place; orders accepted, orders refused by number, grams, fan-seconds, and the greatest first class's
// W and P.
#[repr(C)]
#[derive(Clone, Copy)]
pub struct AddedUp {
    pub number: u32,
    pub place: usize,
    pub accepted: u32,
    pub refused: [u32; ORDER_NUMBERS],
    pub grams: u64,
    pub seconds: u64,
    pub weight: u64,
    pub time: u64,
}

// An order planned into a lent buffer.
pub fn knellgable_plan(order: &[u8], plan: &mut [u8]) -> Planned
    ensures { Plans order.now plan.old (as_planned result) plan.new }
{
    Planned::from(plan::plan(order, plan))
}

// Whether plan bytes stand for an order.
pub fn knellgable_judge(order: &[u8], plan: &[u8]) -> Judged
    ensures { Judges order.now plan.now (as_judged result) }
{
    Judged::from(judge::judge(order, plan))
}

// A dose's point at a tick.
pub fn knellgable_point(order: &[u8], plan: &[u8], dose: usize, tick: u32) -> Drawn
    ensures { DrawsNumbers order.now plan.now dose tick result }
{
    Drawn::from(draw::point_at(order, plan, dose, tick))
}

// The pen as a dose and a lent tick, moved on by one.
pub fn knellgable_advance(order: &[u8], plan: &[u8], dose: usize, tick: &mut u32) -> Drawn
    ensures { MovesNumbers order.now plan.now dose tick.old result tick.new }
{
    let mut pen = Pen { dose, tick: *tick };
    let drawn = Drawn::from(draw::advance(order, plan, &mut pen));
    *tick = pen.tick;
    drawn
}

// A meter log laid beside a dose's line.
pub fn knellgable_log(order: &[u8], plan: &[u8], dose: usize, log: &[u8]) -> Laid
    ensures { Lays order.now plan.now dose log.now (as_laid result) }
{
    Laid::from(log_beside::lay(order, plan, dose, log))
}

// A stream of orders added up.
pub fn knellgable_season(stream: &[u8]) -> AddedUp
    ensures { AddsUp stream.now (as_added_up result) }
{
    AddedUp::from(season::add_up(stream))
}
