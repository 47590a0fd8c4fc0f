// What the programs share: an input, read to its end or until a buffer is full, a text, written whole, and the exit status; and both, around what
// a program answers.
#![tactic(auto)]

ghost use Rattle.std.specs.Prelude.{◌≡◌, ◌≤◌, List, ℕ, Bool, length, take, IfOk, IfSome, OnOk, pos};
ghost use Rattle.std.specs.Io.KnownBytes.{Appends, Consumes};
ghost use Rattle.std.specs.Process.{exit_status};
ghost use Rattle.programs.specs.Exits.{status};
ghost use Rattle.programs.specs.Answers.{came, Puts, AnswersInput};

use std::io;
use std::io::{Read, Write};
use std::process::ExitCode;

// How a program ends: it answered, it printed a refusal, or its input can't be read or its text can't be written whole.
#[derive(Clone, Copy, Debug, PartialEq, Eq)]
pub enum Exit {
    Done,
    Refused,
    Failed,
}

// The exit status: 0, 1 or 2.
impl From<Exit> for ExitCode {
    ghost from_gives = { λ exit code. status exit ≡ pos (exit_status code) };

    fn from(exit: Exit) -> ExitCode {
        match exit {
            Exit::Done => ExitCode::from(0),
            Exit::Refused => ExitCode::from(1),
            Exit::Failed => ExitCode::from(2),
        }
    }
}

// An input that can't be read, and how many bytes came before.
#[derive(Clone, Copy, Debug, PartialEq, Eq)]
pub struct Unreadable {
    pub bytes: usize,
}

// Reads until the buffer is full, the input ends or can't be read. Gives back how many bytes came.
pub fn read_input<R: Read>(input: &mut R, buffer: &mut [u8]) -> Result<usize, Unreadable>
    ensures within { came result ≤ length buffer.new }
    ensures prefix { came result ≡ length (take (came result) buffer.new) }
    ensures same_length { length buffer.new ≡ length buffer.old }
    ensures none_lost { Consumes (R.remaining input.old) (R.remaining input.new) (take (came result) buffer.new) }
    ensures whole { IfOk result (λ n. IfSome (R.remaining input.old) (λ xs. take n buffer.new ≡ take (length buffer.new) xs)) }
{
    let mut at = 0;

    // `at` goes on by what came, so that no range counts it.
    while at < buffer.len() {
        match input.read(&mut buffer[at..]) {
            Ok(0) => return Ok(at),
            Ok(n) => at += n,
            Err(_) => return Err(Unreadable { bytes: at }),
        }
    }
    Ok(at)
}

// Writes the whole text.
pub fn write_text<W: Write>(output: &mut W, text: &[u8]) -> io::Result<()>
    ensures { OnOk result (Appends (W.contents output.old) (W.contents output.new) text.now) }
{
    output.write_all(text)?;
    output.flush()
}

// What a program makes of an input, with ROOM bytes for the text of its answer.
pub trait Program<const ROOM: usize> {
    // What a text says of an input, and whether it is no refusal.
    ghost says: { List ℕ → List ℕ → Bool → Type 0 };

    // Puts the text in front of the buffer and gives back its length: an `Err` where it is that of a refusal. That the buffer is as long as it was is
    // said, since a caller of a trait's method does not know it by the array's type.
    fn answer(input: &[u8], text: &mut [u8; ROOM]) -> Result<usize, usize>
        ensures puts { Puts (says input.now) text.new result }
        ensures same_length { length text.new ≡ ROOM };
}

// Reads an input, as far as there is room for it, and writes the program's answer to it.
pub fn answer_input<P: Program<ROOM>, R: Read, W: Write, const ROOM: usize>(
    input: &mut R,
    output: &mut W,
    bytes: &mut [u8],
    text: &mut [u8; ROOM],
) -> Exit
    ensures { AnswersInput (length bytes.old) P.says (R.remaining input.old) (W.contents output.old) (W.contents output.new) result }
{
    let Ok(n) = read_input(input, bytes) else {
        return Exit::Failed;
    };
    let (exit, end) = match P::answer(&bytes[..n], text) {
        Ok(end) => (Exit::Done, end),
        Err(end) => (Exit::Refused, end),
    };
    match write_text(output, &text[..end]) {
        Ok(()) => exit,
        Err(_) => Exit::Failed,
    }
}
