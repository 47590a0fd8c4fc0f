// The season's program: reads up to 65,537 bytes of a stream of orders from standard input, and writes the season's figures or the refusal to
// standard output. It exits 0 where it added up, 1 where it printed a refusal, 2 where its input can't be read or its text can't be written whole.
#![tactic(auto)]

use season_printer::season_main;
use std::process::ExitCode;

fn main(rt: HostRuntime) -> ExitCode {
    ExitCode::from(season_main(&mut rt.stdin(), &mut rt.stdout()))
}
