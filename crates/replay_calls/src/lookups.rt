// The allocation's lookups as public calls.
use entcode::Refusal;
use replay_io::list::at;
use replay_io::reply;
use replay_io::say::{numbers, text};
use std::io::Stdout;

// G: get_pulses. B: bits2pulses. b: pulses2bits.
fn found(letter: u8, l: &[i32]) -> Result<u32, Refusal> {
    match letter {
        b'G' => rate_cache::get_pulses(at(l, 0)),
        b'B' => rate_cache::bits2pulses(at(l, 0), at(l, 1), at(l, 2)),
        _ => rate_cache::pulses2bits(at(l, 0), at(l, 1), at(l, 2)),
    }
}

// A lookup and its line.
pub fn ask(stdout: Stdout, letter: u8, l: &[i32]) {
    match found(letter, l) {
        Ok(v) => {
            numbers(stdout, &[letter], &[v]);
            text(stdout, b"\n");
        }
        Err(why) => reply::refused(stdout, why),
    }
}
