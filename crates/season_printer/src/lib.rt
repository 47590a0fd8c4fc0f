// Reads up to 65,537 bytes of a stream of orders from an input, adds it up and prints the season's figures or the refusal (document 02, C-15). The
// program `season_program` gives it the standard streams, and ends with the status of its exit.
#![tactic(auto)]

ghost use Rattle.season_printer.specs.Prints.{AnswersStream, SaysStream};

use programs::{Exit, Program, answer_input};
use std::io::{Read, Write};

// One byte more than the longest stream: a longer one is seen to be.
const STREAM_READ: usize = 65537;

// Room for the text of every season: a line of at most 42 bytes for each of ten numbers, and four more.
const TEXT_ROOM: usize = 588;

struct Printer;

impl Program<TEXT_ROOM> for Printer {
    ghost says = { SaysStream };

    // Adds a stream up, and prints its figures or the refusal.
    fn answer(stream: &[u8], text: &mut [u8; TEXT_ROOM]) -> Result<usize, usize> {
        match season::add_up(stream) {
            Ok(s) => Ok(lines::print_season(
                s.accepted,
                s.refused,
                s.grams,
                s.seconds,
                s.greatest.weight,
                s.greatest.time,
                text,
            )),
            Err(no_stream) => {
                let number = u64::from(no_stream.number());
                Err(lines::print_refusal(number, 0, 0, 0, 0, text))
            }
        }
    }
}

// Reads a stream, and prints its figures or its refusal. What it shares with `printer_main` is `answer_input`; README names both.
pub fn season_main<R: Read, W: Write>(input: &mut R, output: &mut W) -> Exit
    ensures { AnswersStream (R.remaining input.old) (W.contents output.old) (W.contents output.new) result }
{
    let mut stream = [0; STREAM_READ];
    let mut text = [0; TEXT_ROOM];
    answer_input::<Printer, R, W, TEXT_ROOM>(input, output, &mut stream, &mut text)
}
