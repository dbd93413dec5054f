// The pulse cache's lookups: the calls of rate_cache.
ghost use Rattle.std.specs.Prelude.{◌≡◌};
ghost use Rattle.rate_cache.specs.Lookups.{pulses_at, bits_to_pulses, pulses_to_bits};
ghost use Rattle.gurthapen_answer.specs.Result as answer;
ghost use Rattle.gurthapen.specs.Lookups.{looks};

// The number of pulses that an index of the cache stands for.
#[unsafe(no_mangle)]
pub extern "C" fn gurthapen_get_pulses(i: i32, value: &mut [u32]) -> u32
    ensures { answer.result result value.new ≡ looks (pulses_at i) value.old }
{
    gurthapen::lookups::gurthapen_get_pulses(i, value)
}

// The index of pulses whose cost is nearest to the bits.
#[unsafe(no_mangle)]
pub extern "C" fn gurthapen_bits2pulses(band: i32, lm: i32, bits: i32, value: &mut [u32]) -> u32
    ensures { answer.result result value.new ≡ looks (bits_to_pulses band lm bits) value.old }
{
    gurthapen::lookups::gurthapen_bits2pulses(band, lm, bits, value)
}

// What an index of pulses costs.
#[unsafe(no_mangle)]
pub extern "C" fn gurthapen_pulses2bits(band: i32, lm: i32, pulses: i32, value: &mut [u32]) -> u32
    ensures { answer.result result value.new ≡ looks (pulses_to_bits band lm pulses) value.old }
{
    gurthapen::lookups::gurthapen_pulses2bits(band, lm, pulses, value)
}
