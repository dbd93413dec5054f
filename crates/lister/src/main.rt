// The lister: requests from standard input, one a line; answers to standard output. Document 01, "The lister".
#![tactic(auto)]

mod work;

use std::process::ExitCode;

// Opens, runs, and says in at most one line what failed. Where whoever read the answers left, it says nothing and its status is 141, as if the signal of a
// write that nobody reads had ended it; else its status is 0. The records have no bytes, so nothing is copied.
fn main(rt: HostRuntime) -> ExitCode {
    let mut block = [0u8; 65536];
    let mut text = [0u8; 65536];
    let mut kept = [0u8; 2601];
    let mut seen = [0u8; 0];
    let mut sent = [0u8; 0];
    let mut reads = [0u64; 1];
    let mut writes = [0u64; 1];
    let end = work::run(
        &mut block,
        &mut kept,
        &mut text,
        &mut seen,
        &mut sent,
        &mut reads,
        &mut writes,
        tool_io::stdin(&rt),
        tool_io::stdout(&rt),
    );
    if tool_io::reader_left(end.output) {
        return ExitCode::from(141);
    }
    if tool_io::read_failed(end.input) {
        tool_io::complain(&rt, b"lister: standard input cannot be read\n");
        return ExitCode::SUCCESS;
    }
    if tool_io::write_failed(end.output) {
        tool_io::complain(&rt, b"lister: standard output cannot be written\n");
    }
    ExitCode::SUCCESS
}
