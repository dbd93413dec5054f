// The lister's run: lines are read, answered and written until the input ends.
ghost use Rattle.std.specs.Prelude.{◌≡◌, true, [], ◌∷◌, ◌++◌, ◌+◌, ◌≤◌, ◌<◌, length, take};
ghost use Rattle.lister_answer.specs.Answer.{listing_of_line};
ghost use Rattle.tool_io.specs.Moved.{NewInput, NewOutput};
ghost use Rattle.tool_lines.specs.Tool.{Ran, Running, Replied};
ghost use Rattle.lister.specs.Stream.{lister};

use tool_io::{Input, Output};
use tool_lines::{Pen, Reader, input, output};

// Where the lister stands: how many lines were read, its input, and its text.
#[derive(Clone, Copy)]
pub struct State {
    pub number: u32,
    pub reader: Reader,
    pub pen: Pen,
}

// How many lines were read, and the text, after a reply.
#[derive(Clone, Copy)]
pub struct AfterReply {
    pub number: u32,
    pub pen: Pen,
}

// The lister's input and its output at the end.
#[derive(Clone, Copy)]
pub struct Ends {
    pub input: Input,
    pub output: Output,
}

// The answer to a line from `at` on; the place after it.
fn answer(line: &[u8], number: u32, out: &mut [u8], at: usize) -> usize
    requires { at + 1200 ≤ length out.old }
    ensures { (take result out.new ≡ take at out.old ++ listing_of_line number line.now) × (result ≤ at + 1200) }
{
    at + lister_answer::answer::write(line, number, &mut out[at..])
}

// The answer to the line that the reader has, if it has one.
fn reply(kept: &[u8], out: &mut [u8], number: u32, r: Reader, p: Pen) -> AfterReply
    requires { (length kept.now ≡ 2601) × (r.kept ≤ 2601) × (p.pending + 1200 ≤ length out.old) }
    ensures { Replied lister number r p kept.now out.old 1200 result.number result.pen out.new }
{
    let output = p.output;
    let n = r.kept;
    if r.ready {
        if number == 4294967295 {
            return AfterReply {
                number,
                pen: Pen {
                    pending: p.pending,
                    on: false,
                    output,
                },
            };
        }
        let pending = answer(&kept[..n], number + 1, out, p.pending);
        return AfterReply {
            number: number + 1,
            pen: Pen {
                pending,
                on: !r.over,
                output,
            },
        };
    }
    AfterReply {
        number,
        pen: Pen {
            pending: p.pending,
            on: !r.over,
            output,
        },
    }
}

// On to the end of a line, of the block or of the input. The text is handed over as soon as the block is used up.
fn turn(
    block: &mut [u8],
    kept: &mut [u8],
    out: &mut [u8],
    seen: &mut [u8],
    sent: &mut [u8],
    reads: &mut [u64],
    writes: &mut [u64],
    s: State,
) -> State
    requires { Running lister 0 s.number s.reader s.pen 64336 1200 block.old kept.old out.old seen.old sent.old reads.old writes.old ×
        (s.pen.on ≡ true) }
    ensures { Running lister 0 result.number result.reader result.pen 64336 1200 block.new kept.new out.new seen.new
        sent.new reads.new writes.new }
{
    let old = s.reader;
    let text = s.pen;
    let r = input::next(block, kept, seen, reads, old);
    let q = reply(kept, out, s.number, r, text);
    let p = q.pen;
    let after = output::flush(out, sent, writes, r.at == r.n, 64336, p);
    State {
        number: q.number,
        reader: r,
        pen: after,
    }
}

// From the first byte to the end of the input.
pub fn run(
    block: &mut [u8],
    kept: &mut [u8],
    out: &mut [u8],
    seen: &mut [u8],
    sent: &mut [u8],
    reads: &mut [u64],
    writes: &mut [u64],
    from: Input,
    to: Output,
) -> Ends
    requires block_nonzero { (0 < length block.old) × (length kept.old ≡ 2601) × (65536 ≤ length out.old) }
    requires new_input { NewInput from × NewOutput to × (reads.old ≡ from.calls ∷ []) × (writes.old ≡ to.calls ∷ []) }
    ensures { Ran lister 0 result.input result.output seen.new sent.new }
{
    let start = input::begin(from);
    let text = output::new_pen(to);
    let mut s = State {
        number: 0,
        reader: start,
        pen: text,
    };
    // `tool_io` counts the turns, and no `for`: `give_up` marks the output as failed only where that count is used up.
    let mut turns = tool_io::all_turns();
    while s.pen.on & tool_io::any_turn(turns) {
        s = turn(block, kept, out, seen, sent, reads, writes, s);
        turns = tool_io::after_turn(turns);
    }
    let last = s.pen;
    let read = s.reader;
    let input = read.input;
    let output = last.output;
    if last.on {
        let failed = tool_io::give_up(turns, output);
        return Ends {
            input,
            output: failed,
        };
    }
    Ends { input, output }
}
