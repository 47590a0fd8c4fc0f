// Whether plan bytes stand for an order (document 01, "A plan stands"). The plan is its own certificate: no share is raised.
#![tactic(auto)]

mod numbers; // numbers.rt: the class of each dose, as the slots name it
mod refusal; // refusal.rt: why judging refuses
mod top; // top.rt: refusal 9

ghost use Rattle.std.specs.Prelude.{◌/◌, ◌≤◌, length, MatchOption};
ghost use Rattle.model.specs.Limits.{most_doses, most_instants};
ghost use Rattle.model.specs.Records.{record_size};
ghost use Rattle.model.specs.Stands.{Stands};
ghost use Rattle.model.proofs.Orders.{Fit};
ghost use Rattle.order.specs.Held.{as_order};
ghost use Rattle.judge.specs.Verdict.{Certified, Verdict};
ghost use Rattle.judge_clauses.specs.Tests.{Tells, RowsPass, Passes, order_held};

pub use classes::TooFast;
use interval::Instants;
use judge_clauses::{Certificate, rows};
use order::{Order, read_order};
use records::RECORD_SIZE;
pub use refusal::Refusal;
use steps::limits::MOST_BAY;

// What the records say by themselves and of the sets that the slots name.
fn rows_pass(plan: &[u8], certificate: &Certificate, doses: usize) -> bool
    requires { (certificate.now.classes ≤ length plan.now / record_size) × (doses ≤ most_doses) }
    ensures { Tells result (RowsPass doses plan.now certificate.now.classes certificate.now.numbers) }
{
    plan.len() % RECORD_SIZE == 0
        && certificate.classes <= doses
        && rows::class_rows(plan, certificate.classes)
        && rows::slot_rows(plan, certificate.classes)
        && numbers::all_numbered(&certificate.numbers, doses, certificate.classes)
        && judge_rates::rates_fall(plan, certificate.classes)
}

// Every clause of "A plan stands", of the sets that the slots name.
fn all_pass(plan: &[u8], certificate: &Certificate, o: &Order, instants: &Instants) -> bool
    requires { (certificate.now.classes ≤ length plan.now / record_size) × (o.now.count ≤ most_doses) × (instants.now.count ≤ most_instants) }
    ensures { Tells result (Passes (order_held o.now instants.now) plan.now certificate.now.classes certificate.now.numbers) }
{
    rows_pass(plan, certificate, o.count)
        && judge_rates::classes_fit(plan, certificate, o, instants)
        && judge_slots::slots_fit(plan, certificate, o, instants)
        && judge_pairs::all_in_turn(plan, certificate.classes, instants)
        && judge_pairs::all_clear(plan, certificate.classes, instants)
        && judge_slots::units_met(plan, certificate, o)
}

// Whether plan bytes stand for an order, by what they name themselves: "no share is raised", and the cost grows with the plan's length.
fn certify(plan: &[u8], o: &Order) -> Option<Certificate>
    requires { Fit (as_order o.now) }
    ensures { MatchOption result (¬ Stands (as_order o.now) plan.now) (λ c. Certified (as_order o.now) plan.now c) }
{
    let instants = interval::instants_of(o);
    let classes = rows::lead(plan);
    let numbers = numbers::class_numbers(plan, classes);
    let certificate = Certificate { classes, numbers };
    all_pass(plan, &certificate, o, &instants).then_some(certificate)
}

// "Drawing checks 2 to 9 in the same order, then 10 ..; judging stops after 10." Any bytes, of any length. Of trial bays: "Old orders and their
// plans are still judged".
pub fn judge(order: &[u8], plan: &[u8]) -> Result<(), Refusal>
    ensures { Verdict order.now plan.now result }
{
    let o = read_order(MOST_BAY, order)?;
    match certify(plan, &o) {
        Some(certificate) => match top::by_certificate(&o, plan, &certificate) {
            Some(f) => Err(Refusal::TooFast(f)),
            None => Ok(()),
        },
        None => match top::by_classes(&o) {
            Some(f) => Err(Refusal::TooFast(f)),
            None => Err(Refusal::Falls),
        },
    }
}
