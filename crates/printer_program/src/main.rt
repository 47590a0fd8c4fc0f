// The plan printer: reads up to 1,601 bytes of order from standard input, and writes the plan or the refusal to standard output. It exits 0 where
// it planned, 1 where it printed a refusal, 2 where its input can't be read or its text can't be written whole.
#![tactic(auto)]

use printer::printer_main;
use std::process::ExitCode;

fn main(rt: HostRuntime) -> ExitCode {
    ExitCode::from(printer_main(&mut rt.stdin(), &mut rt.stdout()))
}
