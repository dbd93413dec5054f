// Whether a pair is one of the coarse-energy model's, found by its share of zero: document 01, "Domain in numbers".
ghost use Rattle.std.specs.Prelude.{◌≡◌};
ghost use Rattle.laplace.specs.Pairs.{pair_known};
ghost use Rattle.laplace.specs.Rows.{decays_for, holds};

// The decays of the pairs whose zero has z 256ths, one in each byte. This is a match, which the compiler makes a table of: a constant array
// would be written out at each call.
#[tactic(auto, unfolding(crate::specs::Rows::decays_for, crate::specs::Rows::decays_in, crate::specs::Rows::decay_rows))]
fn decays_of(z: u32) -> u64
    ensures { result ≡ decays_for z }
{
    match z {
        21 => 0xb2,
        22 => 0xb2,
        23 => 0xb2,
        24 => 0xb3,
        42 => 0x79,
        48 => 0x8a,
        53 => 0x86,
        54 => 0x87_84_73,
        55 => 0x84,
        56 => 0x85,
        59 => 0x6e,
        61 => 0x72_5a,
        62 => 0x80,
        63 => 0x72_66,
        64 => 0x80,
        65 => 0x81_80,
        66 => 0x80_62,
        69 => 0x63,
        70 => 0x60,
        71 => 0x5b_56,
        72 => 0x7f,
        73 => 0x5b,
        74 => 0x59_58_52,
        75 => 0x58_55,
        77 => 0x2d_2a_28,
        78 => 0x59_32,
        83 => 0x4e,
        84 => 0x53_51,
        86 => 0x50_4a,
        87 => 0x4a_48_47,
        88 => 0x4b_49,
        89 => 0x42,
        90 => 0x4f_49,
        91 => 0x43_42,
        92 => 0x52_4f_4e_4b_42,
        93 => 0x4a_40_3c,
        96 => 0x48_43_42,
        97 => 0x2b_26_21,
        98 => 0x48_23,
        100 => 0x3b,
        101 => 0x49,
        102 => 0x3b,
        103 => 0x3e_3c,
        104 => 0x3c,
        105 => 0x3a_2a,
        107 => 0x48_36_29,
        108 => 0x32_2b,
        109 => 0x28,
        110 => 0x2d,
        111 => 0x28,
        112 => 0x38_26,
        113 => 0x37_26,
        114 => 0x37_28_24,
        115 => 0x34_28,
        116 => 0x29_26,
        117 => 0x37_34_2c_22,
        118 => 0x34,
        119 => 0x21,
        120 => 0x28_24,
        122 => 0x25,
        123 => 0x2c_20,
        124 => 0x1a,
        125 => 0x34,
        127 => 0x21,
        129 => 0x33,
        132 => 0x28_1b_1a,
        133 => 0x1f,
        134 => 0x22,
        135 => 0x31,
        136 => 0x13,
        137 => 0x27,
        138 => 0x23,
        139 => 0x15_0f,
        140 => 0x1d_14,
        143 => 0x11,
        145 => 0x1d_12_11,
        146 => 0x13,
        147 => 0x17,
        150 => 0x21_0d,
        152 => 0x14,
        154 => 0x1a,
        155 => 0x0e,
        157 => 0x20,
        158 => 0x19_12,
        159 => 0x10_0a,
        161 => 0x0c,
        162 => 0x0c,
        165 => 0x0a,
        166 => 0x15,
        170 => 0x0d,
        173 => 0x10,
        175 => 0x09,
        176 => 0x0a,
        177 => 0x0b_0a_09,
        178 => 0x07,
        184 => 0x0d_0a,
        187 => 0x08,
        189 => 0x06,
        190 => 0x08,
        192 => 0x06,
        _ => 0,
    }
}

// Is d one of the five bytes of w?
fn is_in(w: u64, d: u64) -> bool
    ensures { result ≡ holds w d }
{
    (w % 256 == d)
        | (w / 256 % 256 == d)
        | (w / 65536 % 256 == d)
        | (w / 16777216 % 256 == d)
        | (w / 4294967296 == d)
}

// Is this one of the model's pairs?
pub fn pair_known(fs: u32, decay: u32) -> bool
    ensures { result ≡ pair_known fs decay }
{
    if (fs % 128 == 0) & (decay % 64 == 0) & (0 < decay) {
        is_in(decays_of(fs / 128), (decay / 64) as u64)
    } else {
        false
    }
}
