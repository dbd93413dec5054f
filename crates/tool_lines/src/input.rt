// Lines from an input, one call after the other: a call goes to the end of a line, of the block or of the input, and reads at most once.
ghost use Rattle.std.specs.Prelude.{◌≡◌, false, cond, List, [], ◌∷◌, ℕ, ◌<◌, ◌≤◌, length};
ghost use Rattle.tool_lines.specs.Reading.{InBounds, Stepped, CutInBlock, AtStart};

use crate::Reader;
use tool_io::Input;

// Before the first byte.
pub fn begin(input: Input) -> Reader
    ensures { AtStart input result }
{
    Reader {
        at: 0,
        n: 0,
        kept: 0,
        ready: false,
        over: false,
        input,
    }
}

// How many bytes are kept of a line that has not ended: none where the reader has a whole one.
fn begun(ready: bool, kept: usize) -> usize
    ensures { result ≡ cond ready 0 kept }
{
    if ready { 0 } else { kept }
}

// On to the end of a line or of the block.
fn cut(block: &[u8], kept: &mut [u8], p: Reader) -> Reader
    requires { (p.kept ≤ length kept.old) × (p.at ≤ length block.now) }
    ensures { CutInBlock (length kept.old) p kept.old block.now result kept.new }
{
    let input = p.input;
    let k = begun(p.ready, p.kept);
    let f = text::lines::fill(block, p.at, kept, k);
    Reader {
        at: f.at,
        n: p.n,
        kept: f.kept,
        ready: f.ended,
        over: p.over,
        input,
    }
}

// The next block, or the input's end, which ends a line too.
fn refill(block: &mut [u8], log: &mut [u8], calls: &mut [u64], p: Reader) -> Reader
    requires { (0 < length block.old) × (p.input.logged ≤ length log.old) × (calls.old ≡ p.input.calls ∷ []) × (p.n ≤ p.at) × (p.over ≡ false) }
    ensures { (kept : List ℕ) → InBounds (length kept) p (length block.old) (length log.old) → Stepped (length kept) p kept
        block.old log.old result kept block.new log.new calls.new }
{
    let input = p.input;
    let k = begun(p.ready, p.kept);
    let g = tool_io::read_block(block, log, calls, input);
    let after = g.input;
    let ended = tool_io::ended(after);
    let failed = tool_io::read_failed(after);
    Reader {
        at: 0,
        n: g.n,
        kept: k,
        ready: ended & (0 < k),
        over: ended | failed,
        input: after,
    }
}

// On to the end of a line, of the block or of the input. `kept` has room for as many bytes of a line as are to be kept.
pub fn next(
    block: &mut [u8],
    kept: &mut [u8],
    log: &mut [u8],
    calls: &mut [u64],
    p: Reader,
) -> Reader
    requires { InBounds (length kept.old) p (length block.old) (length log.old) × (calls.old ≡ p.input.calls ∷ []) × (p.over ≡ false) }
    ensures { Stepped (length kept.old) p kept.old block.old log.old result kept.new block.new
        log.new calls.new }
{
    let n = p.n;
    if p.at < n {
        return cut(&block[..n], kept, p);
    }
    refill(block, log, calls, p)
}
