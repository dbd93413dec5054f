// The pulse cache's lookups: the calls of rate_cache.
ghost use Rattle.std.specs.Prelude.{◌≡◌};
ghost use Rattle.rate_cache.specs.Lookups.{pulses_at, bits_to_pulses, pulses_to_bits};
ghost use Rattle.gurthapen_answer.specs.Result as answer;
ghost use Rattle.gurthapen.specs.Lookups.{looks};

use gurthapen_answer::numbers::leave_number;

// The number of pulses that an index of the cache stands for.
pub fn gurthapen_get_pulses(i: i32, value: &mut [u32]) -> u32
    ensures { answer.result result value.new ≡ looks (pulses_at i) value.old }
{
    if value.len() == 1 {
        let a = rate_cache::get_pulses(i);
        return leave_number(a, value);
    }
    2
}

// The index of pulses whose cost is nearest to the bits.
pub fn gurthapen_bits2pulses(band: i32, lm: i32, bits: i32, value: &mut [u32]) -> u32
    ensures { answer.result result value.new ≡ looks (bits_to_pulses band lm bits) value.old }
{
    if value.len() == 1 {
        let a = rate_cache::bits2pulses(band, lm, bits);
        return leave_number(a, value);
    }
    2
}

// What an index of pulses costs.
pub fn gurthapen_pulses2bits(band: i32, lm: i32, pulses: i32, value: &mut [u32]) -> u32
    ensures { answer.result result value.new ≡ looks (pulses_to_bits band lm pulses) value.old }
{
    if value.len() == 1 {
        let a = rate_cache::pulses2bits(band, lm, pulses);
        return leave_number(a, value);
    }
    2
}
