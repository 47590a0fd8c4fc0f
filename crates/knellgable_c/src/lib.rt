// The six entry points for C and Rust, in the archive that programs link: each hands on what the library's function of its name answers, and
// promises the same. include/knellgable.h says the promises in words.
#![tactic(auto)]

ghost use Rattle.model.specs.Answers.{Plans, Judges, Lays};
ghost use Rattle.model.specs.Season.{AddsUp};
ghost use Rattle.knellgable.specs.Exported.{as_planned, as_judged, as_laid, as_added_up, DrawsNumbers, MovesNumbers};

use knellgable::{AddedUp, Drawn, Judged, Laid, Planned};

// An order planned into a lent buffer.
#[unsafe(no_mangle)]
pub extern "C" fn knellgable_plan(order: &[u8], plan: &mut [u8]) -> Planned
    ensures { Plans order.now plan.old (as_planned result) plan.new }
{
    knellgable::knellgable_plan(order, plan)
}

// Whether plan bytes stand for an order.
#[unsafe(no_mangle)]
pub extern "C" fn knellgable_judge(order: &[u8], plan: &[u8]) -> Judged
    ensures { Judges order.now plan.now (as_judged result) }
{
    knellgable::knellgable_judge(order, plan)
}

// A dose's point at a tick.
#[unsafe(no_mangle)]
pub extern "C" fn knellgable_point(order: &[u8], plan: &[u8], dose: usize, tick: u32) -> Drawn
    ensures { DrawsNumbers order.now plan.now dose tick result }
{
    knellgable::knellgable_point(order, plan, dose, tick)
}

// The pen as a dose and a lent tick, moved on by one.
#[unsafe(no_mangle)]
pub extern "C" fn knellgable_advance(
    order: &[u8],
    plan: &[u8],
    dose: usize,
    tick: &mut u32,
) -> Drawn
    ensures { MovesNumbers order.now plan.now dose tick.old result tick.new }
{
    knellgable::knellgable_advance(order, plan, dose, tick)
}

// A meter log laid beside a dose's line.
#[unsafe(no_mangle)]
pub extern "C" fn knellgable_log(order: &[u8], plan: &[u8], dose: usize, log: &[u8]) -> Laid
    ensures { Lays order.now plan.now dose log.now (as_laid result) }
{
    knellgable::knellgable_log(order, plan, dose, log)
}

// A stream of orders added up.
#[unsafe(no_mangle)]
pub extern "C" fn knellgable_season(stream: &[u8]) -> AddedUp
    ensures { AddsUp stream.now (as_added_up result) }
{
    knellgable::knellgable_season(stream)
}
