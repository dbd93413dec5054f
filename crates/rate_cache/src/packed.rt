// The pulse cache (cache_index50 and cache_bits50), several entries in one number: a match on a number is made a table by the compiler, where a
// constant array would be written out at each call.
ghost use Rattle.std.specs.Prelude.{◌≡◌, ◌<◌};
ghost use Rattle.rate_cache.specs.Packed.{row_mark, four_marks, eight_entries};

// Four marks of rows, from place 4k of the index on, 16 bits each.
fn four_marks(k: usize) -> u64
    requires { k < 27 }
    ensures { result ≡ four_marks k }
{
    match k {
        0 => 0x0000,
        1 => 0x0000,
        2 => 0x5001_5001_5001_5001,
        3 => 0x5053_502a_502a_502a,
        4 => 0x2ac9_46a5_507c_5053,
        5 => 0x5001_5001_5001_22df,
        6 => 0x5001_5001_5001_5001,
        7 => 0x502a_502a_502a_5001,
        8 => 0x507c_507c_507c_502a,
        9 => 0x210b_32f1_46a5_46a5,
        10 => 0x502a_502a_1328_171c,
        11 => 0x502a_502a_502a_502a,
        12 => 0x507c_507c_502a_502a,
        13 => 0x32f1_32f1_507c_507c,
        14 => 0x1932_210b_210b_32f1,
        15 => 0x507c_0d51_0f49_133f,
        16 => 0x507c_507c_507c_507c,
        17 => 0x32f1_507c_507c_507c,
        18 => 0x1932_32f1_32f1_32f1,
        19 => 0x133f_133f_1932_1932,
        20 => 0x0b6d_0b67_0d60_0f58,
        21 => 0x32f1_32f1_32f1_32f1,
        22 => 0x32f1_32f1_32f1_32f1,
        23 => 0x1932_1932_1932_1932,
        24 => 0x0d60_0f58_0f58_0f58,
        25 => 0x097f_0b79_0b73_0d60,
        _ => 0x0984,
    }
}

// Eight entries of the cache, from place 8k on, a byte each.
pub fn eight_entries(k: usize) -> u64
    requires { k < 49 }
    ensures { result ≡ eight_entries k }
{
    match k {
        0 => 0x07_07_07_07_07_07_07_28,
        1 => 0x07_07_07_07_07_07_07_07,
        2 => 0x07_07_07_07_07_07_07_07,
        3 => 0x07_07_07_07_07_07_07_07,
        4 => 0x07_07_07_07_07_07_07_07,
        5 => 0x24_22_1f_1c_17_0f_28_07,
        6 => 0x2e_2d_2c_2b_2a_29_27_26,
        7 => 0x36_35_34_33_32_31_2f_2f,
        8 => 0x3e_3d_3c_3b_3a_39_37_37,
        9 => 0x46_45_44_43_42_41_3f_3f,
        10 => 0x35_30_29_21_14_28_47_47,
        11 => 0x4b_49_47_45_42_40_3d_39,
        12 => 0x5b_59_57_55_52_50_4e_4c,
        13 => 0x6b_69_67_65_62_60_5e_5c,
        14 => 0x7b_79_77_75_72_70_6e_6c,
        15 => 0x3c_33_27_17_28_80_7e_7c,
        16 => 0x61_5e_5b_57_53_4f_49_43,
        17 => 0x79_76_73_6f_6b_69_66_64,
        18 => 0x91_8e_8b_87_83_81_7e_7c,
        19 => 0xa9_a6_a3_9f_9b_99_96_94,
        20 => 0x41_31_1c_23_b3_b1_ae_ac,
        21 => 0x84_7e_78_72_6b_63_59_4e,
        22 => 0xab_a5_9f_99_95_91_8d_88,
        23 => 0xd3_cd_c7_c0_bd_b9_b4_b0,
        24 => 0xfb_f5_ef_e8_e5_e1_dc_d8,
        25 => 0x89_7d_70_61_4f_3a_21_15,
        26 => 0xc9_c3_bd_b6_ae_a6_9d_94,
        27 => 0x23_11_fb_f3_eb_e3_d9_cf,
        28 => 0xb1_a5_98_8b_7b_6a_56_3f,
        29 => 0xfa_ed_e6_de_d6_ce_c5_bb,
        30 => 0x80_75_69_5b_4b_37_1f_19,
        31 => 0xb9_b4_ae_a8_a1_9a_92_8a,
        32 => 0xf0_eb_e5_de_d7_d0_c8_be,
        33 => 0x80_6e_59_41_24_10_ff_f5,
        34 => 0xe2_d9_cf_c4_b9_ad_9f_90,
        35 => 0x80_67_4a_29_0b_fa_f2_ea,
        36 => 0x09_ff_f1_e1_d1_bf_ac_97,
        37 => 0xe3_cf_ba_a3_8a_6e_4f_2b,
        38 => 0xa4_90_7b_63_47_27_0c_f6,
        39 => 0x2c_09_fd_f1_e4_d6_c6_b6,
        40 => 0xff_eb_d6_c0_a8_8e_71_51,
        41 => 0xf7_dc_bf_a0_7f_5a_31_07,
        42 => 0x07_ea_cb_aa_86_5f_33_06,
        43 => 0x06_ed_d4_b8_9b_7b_57_2f,
        44 => 0x39_05_f0_d0_ae_89_61_34,
        45 => 0x9e_6f_3b_05_e7_c0_97_6a,
        46 => 0xe0_bb_93_67_37_05_f3_ca,
        47 => 0x41_04_f8_ce_a1_71_3c_05,
        _ => 0xea_b6_7f_43_04_e0_af_7a,
    }
}

// The mark of a band's row, where lm is LM + 1.
pub fn mark_of(lm: usize, band: usize) -> u64
    requires { (lm < 5) × (band < 21) }
    ensures { (result ≡ row_mark lm band) × (result < 65536) }
{
    let j = 21 * lm + band;
    let w = four_marks(j / 4);
    (w >> (16 * (j % 4))) % 65536
}
