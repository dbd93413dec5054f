// The pulse cache's lookups: rate.rs, get_pulses, bits2pulses and pulses2bits, for every i32.
// Band, LM and pulses stay i32, any of which is answered, as document 01 and the exports have them.
#![tactic(auto)]

ghost use Rattle.std.specs.Prelude.{◌≡◌, ◌&&◌, ◌≤◌, ◌<◌};
ghost use Rattle.entcode.specs.Said.{said, verdict};
ghost use Rattle.laws.specs.Signs.{clip};
ghost use Rattle.modes.specs.CacheIndex.{row_start};
ghost use Rattle.rate_cache.specs.Pulses.{get_pulses};
ghost use Rattle.rate_cache.specs.Lookups.{
  refusal_of,
  level_of,
  band_ok,
  bits_ok,
  HasRow,
  no_row,
  no_entry,
  pulses_at,
  bits_to_pulses,
  pulses_to_bits,
};

use entcode::Refusal;

mod packed;
mod row;

// The number of pulses of an index in the domain.
fn pulses_of(i: u32) -> u32
    requires { i ≤ 40 }
    ensures { result ≡ get_pulses i }
{
    if i < 8 { i } else { (8 + i % 8) << (i / 8 - 1) }
}

// LM + 1: the row of the cache's index.
fn level(lm: i32) -> usize
    ensures { result ≡ level_of lm }
{
    if lm < 0 {
        return 0;
    }
    laws::clipped(lm) as usize + 1
}

// Is there such a band, and such an LM?
fn band_ok(band: i32, lm: i32) -> bool
    ensures { result ≡ band_ok band lm }
{
    laws::in_range(band, 0, 20) & laws::in_range(lm, -1, 3)
}

// Are the bits in their domain?
fn bits_ok(bits: i32) -> bool
    ensures { result ≡ bits_ok bits }
{
    laws::in_range(bits, -81600, 81600)
}

// Is there a row?
fn no_row(lm: usize, band: usize) -> Result<(), Refusal>
    requires { (lm < 5) × (band < 21) }
    ensures { verdict result ≡ no_row lm band }
{
    if packed::mark_of(lm, band) == 0 {
        Err(Refusal::NoRow)
    } else {
        Ok(())
    }
}

// Is there a row, and has it such an index?
fn no_entry(lm: usize, band: usize, pulses: i32) -> Result<(), Refusal>
    requires { (lm < 5) × (band < 21) }
    ensures { verdict result ≡ no_entry lm band pulses }
{
    let mark = packed::mark_of(lm, band);
    if mark == 0 {
        return Err(Refusal::NoRow);
    }
    let most = (mark / 512) as i32;
    if !laws::in_range(pulses, 0, most) {
        return Err(Refusal::Index);
    }
    Ok(())
}

// Where the row for a band and an LM starts.
fn row_of(band: i32, lm: i32) -> usize
    requires { HasRow band lm }
    ensures { result ≡ row_start (level_of lm) (clip band) }
{
    let mark = packed::mark_of(level(lm), laws::clipped(band) as usize);
    (mark % 512 - 1) as usize
}

// The refusal of a call without lists and coder.
fn refusal_of(numbers: bool, special: Result<(), Refusal>) -> Result<(), Refusal>
    ensures { verdict result ≡ refusal_of numbers (verdict special) }
{
    entcode::refusal_of(true, numbers, true, special, true, true)
}

// Two gates: one asks for a row, the other for an entry of it, as `bits_to_pulses` and `pulses_to_bits` say.
// The refusal of bits2pulses.
fn bits_refusal(band: i32, lm: i32, bits: i32) -> Result<(), Refusal>
    ensures { verdict result ≡ refusal_of (band_ok band lm && bits_ok bits) (no_row (level_of lm) (clip band)) }
{
    if band_ok(band, lm) & bits_ok(bits) {
        return refusal_of(true, no_row(level(lm), laws::clipped(band) as usize));
    }
    refusal_of(false, Ok(()))
}

// The refusal of pulses2bits.
fn pulses_refusal(band: i32, lm: i32, pulses: i32) -> Result<(), Refusal>
    ensures { verdict result ≡ refusal_of (band_ok band lm) (no_entry (level_of lm) (clip band) pulses) }
{
    if band_ok(band, lm) {
        return refusal_of(
            true,
            no_entry(level(lm), laws::clipped(band) as usize, pulses),
        );
    }
    refusal_of(false, Ok(()))
}

// The number of pulses that an index of the cache stands for.
pub fn get_pulses(i: i32) -> Result<u32, Refusal>
    ensures { said result ≡ pulses_at i }
{
    refusal_of(laws::in_range(i, 0, 40), Ok(()))?;
    Ok(pulses_of(laws::clipped(i)))
}

// The index of pulses whose cost is nearest to the bits.
pub fn bits2pulses(band: i32, lm: i32, bits: i32) -> Result<u32, Refusal>
    ensures { said result ≡ bits_to_pulses band lm bits }
{
    bits_refusal(band, lm, bits)?;
    Ok(row::pulses_for(row_of(band, lm), laws::clipped(bits)))
}

// What an index of pulses costs.
pub fn pulses2bits(band: i32, lm: i32, pulses: i32) -> Result<u32, Refusal>
    ensures { said result ≡ pulses_to_bits band lm pulses }
{
    pulses_refusal(band, lm, pulses)?;
    Ok(row::bits_for(row_of(band, lm), laws::clipped(pulses) as usize))
}
