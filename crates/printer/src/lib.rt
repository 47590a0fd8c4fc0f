// "Reads up to 1,601 bytes of order" from an input, plans it and prints the plan or the refusal (document 01, "The plan printer"). The program
// `printer_program` gives it the standard streams, and ends with the status of its exit.
#![tactic(auto)]

ghost use Rattle.printer.specs.Prints.{AnswersOrder, SaysOrder};

use programs::{Exit, Program, answer_input};
use std::io::{Read, Write};
use steps::limits::PLAN_ROOM;

// One byte more than the longest order: a longer one is seen to be.
const ORDER_READ: usize = 1601;

// Room for the text of every plan: a line of at most 160 bytes for each of its 1,481 records, and the total.
const TEXT_ROOM: usize = 237120;

struct Printer;

impl Program<TEXT_ROOM> for Printer {
    ghost says = { SaysOrder };

    // Plans an order, and prints the plan or the refusal.
    fn answer(order: &[u8], text: &mut [u8; TEXT_ROOM]) -> Result<usize, usize> {
        let mut plan = [0; PLAN_ROOM];
        match plan::plan(order, &mut plan) {
            Ok(p) => Ok(lines::print_plan(&plan, p.classes, p.slots, text)),
            Err(refusal) => {
                let n = refusal.numbers();
                Err(lines::print_refusal(
                    u64::from(n.number),
                    n.place as u64,
                    n.set,
                    n.weight,
                    n.time,
                    text,
                ))
            }
        }
    }
}

// Reads an order, and prints its plan or its refusal. What it shares with `season_main` is `answer_input`; README names both.
pub fn printer_main<R: Read, W: Write>(input: &mut R, output: &mut W) -> Exit
    ensures { AnswersOrder (R.remaining input.old) (W.contents output.old) (W.contents output.new) result }
{
    let mut order = [0; ORDER_READ];
    let mut text = [0; TEXT_ROOM];
    answer_input::<Printer, R, W, TEXT_ROOM>(input, output, &mut order, &mut text)
}
