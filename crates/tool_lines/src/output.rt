// A text on its way to standard output: when it is handed over.
ghost use Rattle.std.specs.Prelude.{◌≡◌, true, [], ◌∷◌, ◌≤◌, length};
ghost use Rattle.tool_lines.specs.Tool.{Flushed};

use crate::Pen;
use tool_io::Output;

// Before the first byte.
pub fn new_pen(output: Output) -> Pen
    ensures { (result.pending ≡ 0) × (result.on ≡ true) × (result.output ≡ output) }
{
    Pen {
        pending: 0,
        on: true,
        output,
    }
}

// Hands the text over where the block is used up (`dry`), where there is more than `most`, and at the end.
pub fn flush(out: &[u8], log: &mut [u8], calls: &mut [u64], dry: bool, most: usize, p: Pen) -> Pen
    requires { (p.pending ≤ length out.now) × (p.output.logged ≤ length log.old) × (calls.old ≡ p.output.calls ∷ []) }
    ensures { Flushed p out.now log.old dry most result log.new calls.new }
{
    let n = p.pending;
    if p.on & !dry & (n <= most) {
        return p;
    }
    let output = p.output;
    let after = tool_io::write_text(&out[..n], log, calls, output);
    let failed = tool_io::write_failed(after);
    Pen {
        pending: 0,
        on: p.on & !failed,
        output: after,
    }
}
