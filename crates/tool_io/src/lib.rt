// Standard input and standard output with a record of what was moved. To read or write takes a handle of the system, which `main` is given and hands to
// this crate alone: a function that has an input and an output of this crate, and no handle, can read and write in no other way, so what its contracts
// say of the records it says of the bytes. A record is a slice that the caller lends:
// what is read or written is also copied there while there is room. A program lends slices of no bytes, and nothing is copied. Beside a record
// the caller lends the count of the calls made, a slice of one number; an input and an output have the same number inside, so each value of
// them serves for one call: with an old one, a second call's `requires` is false.
#![tactic(auto)]

ghost use Rattle.std.specs.Prelude.{◌≡◌, ◌+◌, ◌%◌, ◌^◌, ◌<◌, ◌≤◌, true, [], ◌∷◌, length, nat_lt};
ghost use Rattle.tool_io.specs.Moved.{Noted, OneRead, OneWrite, NewInput, NewOutput};

use std::io;
use std::io::{ErrorKind, Print, Read, Stdin, Stdout};

// An input: its handle, the bytes in its record, whether they are all that was read, whether its end was seen, whether a read failed, and the
// calls made. Only this file can make one or look inside. Each mark is a field of its own, since `OneRead` says of each by itself what a call makes of it.
#[derive(Clone, Copy)]
pub struct Input {
    handle: Stdin,
    logged: usize,
    complete: bool,
    ended: bool,
    failed: bool,
    calls: u64,
}

// The output, in the same way, for `OneWrite`; `left` says whether a write failed since nobody reads the output any more.
#[derive(Clone, Copy)]
pub struct Output {
    handle: Stdout,
    logged: usize,
    complete: bool,
    failed: bool,
    left: bool,
    calls: u64,
}

// The bytes that a read put at the start of the block, and the input after it.
#[derive(Clone, Copy)]
pub struct BlockRead {
    pub n: usize,
    pub input: Input,
}

// The bytes in a record after a call, and whether they are all that was moved: `Noted` counts them also where they are not.
#[derive(Clone, Copy)]
pub struct Note {
    pub logged: usize,
    pub complete: bool,
}

// Standard input, before its first byte.
pub fn stdin(rt: &HostRuntime) -> Input
    ensures { NewInput result }
{
    Input {
        handle: rt.stdin(),
        logged: 0,
        complete: true,
        ended: false,
        failed: false,
        calls: 0,
    }
}

// Standard output, before its first byte.
pub fn stdout(rt: &HostRuntime) -> Output
    ensures { NewOutput result }
{
    Output {
        handle: rt.stdout(),
        logged: 0,
        complete: true,
        failed: false,
        left: false,
        calls: 0,
    }
}

// Whether the input's end was seen.
pub fn ended(s: Input) -> bool
    ensures { result ≡ s.ended }
{
    s.ended
}

// Whether a read failed.
pub fn read_failed(s: Input) -> bool
    ensures { result ≡ s.failed }
{
    s.failed
}

// Whether the output failed.
pub fn write_failed(s: Output) -> bool
    ensures { result ≡ s.failed }
{
    s.failed
}

// Whether a write failed since nobody reads the output any more.
pub fn reader_left(s: Output) -> bool
    ensures { result ≡ s.left }
{
    s.left
}

// Hands a message to standard error.
pub fn complain(rt: &HostRuntime, message: &[u8]) {
    let _ = rt.stderr().write_all(message);
}

// Turns of a loop that reads to the end of its input: nothing says that the input ends, so they are counted, more than any input needs. Only
// this file can make a count or look inside.
#[derive(Clone, Copy)]
pub struct Turns {
    remaining: u64,
}

// As many turns as a count has.
pub fn all_turns() -> Turns {
    Turns {
        remaining: u64::MAX,
    }
}

// Whether there is one turn more.
pub fn any_turn(t: Turns) -> bool
    ensures { result ≡ nat_lt 0 t.remaining }
{
    0 < t.remaining
}

// The turns that remain after one.
pub fn after_turn(t: Turns) -> Turns
    requires { 0 < t.remaining }
    ensures { result.remaining < t.remaining }
{
    Turns {
        remaining: t.remaining - 1,
    }
}

// The program stops before its end, since no turn remains: the output counts as failed.
pub fn give_up(t: Turns, s: Output) -> Output
    requires { t.remaining ≡ 0 }
    ensures { result.failed ≡ true }
{
    Output {
        handle: s.handle,
        logged: s.logged,
        complete: s.complete,
        failed: true,
        left: s.left,
        calls: s.calls,
    }
}

// The bytes go into the record where it is complete and has room for them; where it has none, it is complete no more.
fn noted(log: &mut [u8], n: usize, complete: bool, bytes: &[u8]) -> Note
    requires { n ≤ length log.old }
    ensures { Noted n complete log.old bytes.now result.logged result.complete log.new }
{
    if complete && bytes.len() <= log.len() - n {
        let end = n + bytes.len();
        log[n..end].copy_from_slice(bytes);
        return Note {
            logged: end,
            complete: true,
        };
    }
    Note {
        logged: n,
        complete: false,
    }
}

// One call more: the count that the caller lends, and the number of calls made.
fn count_call(calls: &mut [u64], made: u64) -> u64
    requires { calls.old ≡ made ∷ [] }
    ensures { (calls.new ≡ result ∷ []) × (result ≡ (made + 1) % 2 ^ 64) }
{
    let next = made.wrapping_add(1);
    calls[0] = next;
    next
}

// Reads once, into the block.
pub fn read_block(block: &mut [u8], log: &mut [u8], calls: &mut [u64], s: Input) -> BlockRead
    requires { (0 < length block.old) × (s.logged ≤ length log.old) × (calls.old ≡ s.calls ∷ []) }
    ensures { OneRead s log.old result block.new log.new calls.new }
{
    let made = count_call(calls, s.calls);
    let mut handle = s.handle;
    let Ok(n) = handle.read(block) else {
        return BlockRead {
            n: 0,
            input: Input {
                handle,
                logged: s.logged,
                complete: s.complete,
                ended: s.ended,
                failed: true,
                calls: made,
            },
        };
    };
    let k = noted(log, s.logged, s.complete, &block[..n]);
    BlockRead {
        n,
        input: Input {
            handle,
            logged: k.logged,
            complete: k.complete,
            ended: n == 0,
            failed: s.failed,
            calls: made,
        },
    }
}

// Whether a write failed since nobody reads any more.
fn is_left(written: &io::Result<()>) -> bool {
    matches!(written, Err(e) if e.kind() == ErrorKind::BrokenPipe)
}

// Hands the text to standard output.
pub fn write_text(text: &[u8], log: &mut [u8], calls: &mut [u64], s: Output) -> Output
    requires { (s.logged ≤ length log.old) × (calls.old ≡ s.calls ∷ []) }
    ensures { OneWrite s log.old text.now result log.new calls.new }
{
    let made = count_call(calls, s.calls);
    let handle = s.handle;
    let written = handle.write_all(text);
    let k = noted(log, s.logged, s.complete, text);
    let bad = s.failed | written.is_err();
    let left = s.left | is_left(&written);
    Output {
        handle,
        logged: k.logged,
        complete: k.complete,
        failed: bad,
        left,
        calls: made,
    }
}
