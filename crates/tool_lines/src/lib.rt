// Tools that answer lines: an input read block by block and cut into lines, and a text on its way to standard output. Document 01, "The lister".
#![tactic(auto)]

pub mod input;
pub mod output;

use tool_io::{Input, Output};

// An input and its block: the place in the block and the end of what was read into it; the bytes of a line that are kept, and whether they
// are a whole line; and whether there is no more to read. The places are numbers and no slices, since block and line are lent anew to each call, so
// that the tool has fixed memory, and `Running` speaks of both as a whole. Each mark is a field of its own: `Went` says of each what a step makes of it.
#[derive(Clone, Copy)]
pub struct Reader {
    pub at: usize,
    pub n: usize,
    pub kept: usize,
    pub ready: bool,
    pub over: bool,
    pub input: Input,
}

// Text on its way to standard output: how many bytes of the buffer, which is lent to each call, are not handed over yet, whether to go on, and the
// output. Whether to go on is a field of its own, as `Running` and `Flushed` have it.
#[derive(Clone, Copy)]
pub struct Pen {
    pub pending: usize,
    pub on: bool,
    pub output: Output,
}
