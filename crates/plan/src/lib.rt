// Planning an order into a lent buffer (document 01, "What comes back").
#![tactic(auto)]

mod refusal; // refusal.rt: why an order is not planned
mod tables; // tables.rt: the tables that slots are laid by
mod write; // write.rt: the plan's records

ghost use Rattle.std.specs.Prelude.{◌≤◌, length};
ghost use Rattle.model.specs.Limits.{plan_room};
ghost use Rattle.model.specs.Answers.{Plans};
ghost use Rattle.model.proofs.Orders.{Fit};
ghost use Rattle.order.specs.Held.{as_order};
ghost use Rattle.classes.specs.Answer.{ClassesOf, SharesOf};
ghost use Rattle.plan.specs.Answered.{as_planned, planned, PlansOrder, WritesOrder};

use classes::Tally;
pub use classes::TooFast;
use order::Order;
use plan_layout::Filling;
pub use refusal::Refusal;
use steps::limits::{CELLS, LAST_OPEN_BAY, MOST_DOSES, MOST_INTERVALS, PLAN_ROOM};
use tables::tables_of;
use write::write_plan;

// "Planning also returns the classes and slots written".
#[derive(Clone, Copy)]
pub struct Planned {
    pub classes: usize,
    pub slots: usize,
}

// The plan of an order's classes and shares, in front of the rest of the buffer.
fn write_order(
    o: &Order,
    tally: &Tally,
    shares: &[u64; CELLS],
    reserved: &[[u8; MOST_INTERVALS]; MOST_DOSES],
    plan: &mut [u8],
) -> Planned
    requires { Fit (as_order o.now) × ClassesOf (as_order o.now) tally.now × SharesOf (as_order o.now) tally.now reserved.now shares.now × (plan_room ≤ length plan.old) }
    ensures { WritesOrder (as_order o.now) plan.old (planned result.classes result.slots) plan.new }
{
    let instants = interval::instants_of(o);
    let tables = tables_of(o.count, &instants, tally);
    let slots = write_plan(
        plan,
        &Filling {
            tables: &tables,
            shares,
            reserved,
        },
    );
    Planned {
        classes: tables.classes,
        slots,
    }
}

// An order that was read, into a buffer with room: refusal 9, or the plan written. The last of the checks comes before the first byte.
fn plan_order(o: &Order, plan: &mut [u8]) -> Result<Planned, Refusal>
    requires { Fit (as_order o.now) × (plan_room ≤ length plan.old) }
    ensures { PlansOrder (as_order o.now) plan.old (as_planned result) plan.new }
{
    let mut shares = [0u64; CELLS];
    let mut reserved = [[0u8; MOST_INTERVALS]; MOST_DOSES];
    let tally = classes::classes_of(o, &mut shares, &mut reserved);
    if let Some(fast) = classes::too_fast(o, &tally) {
        return Err(Refusal::TooFast(fast));
    }
    Ok(write_order(o, &tally, &shares, &reserved, plan))
}

// "Planning checks 1, 2, then record by record 3, 4, 5 in that order" and 15, "then 6, 7, 8, 9." Of trial bays: "New orders that name them are
// not planned." "A refusal changes no byte".
pub fn plan(order: &[u8], plan: &mut [u8]) -> Result<Planned, Refusal>
    ensures { Plans order.now plan.old (as_planned result) plan.new }
{
    if plan.len() < PLAN_ROOM {
        return Err(Refusal::NoRoom);
    }
    let o = order::read_order(LAST_OPEN_BAY, order).map_err(Refusal::Order)?;
    plan_order(&o, plan)
}
