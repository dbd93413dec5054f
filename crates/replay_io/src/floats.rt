// Floats of a line, by their bits.
use super::list::word;
use super::push_all;
use text::write::hex_word;

// The f32 of these bits: a NaN where they are one's.
pub fn float_of(bits: u32) -> f32 {
    if bits % 2147483648 <= 2139095040 {
        return f32::from_bits(bits);
    }
    let top = f32::from_bits(0x7f80_0000);
    top - top
}

// The numbers of a list as f32, as many as there is room for.
pub fn floats_of(list: &[i32], x: &mut [f32]) {
    for i in 0..x.len() {
        x[i] = float_of(word(list, i));
    }
}

// The bits of an f32. Those of a NaN tell nothing: one pattern stands for them all.
fn bits_of(x: f32) -> u32 {
    if x == x { f32::to_bits(x) } else { 0x7fc0_0000 }
}

// The text with the eight hex digits of an f32's bits after it.
pub fn push_float(out: &mut [u8], n: usize, x: f32) -> usize {
    let mut word = [0u8; 8];
    hex_word(bits_of(x), &mut word, 0);
    push_all(out, n, &word)
}
