// A line's fields, read.
ghost use Rattle.std.specs.Prelude.{◌≡◌, map, ◌<◌, ◌≤◌, nat_abs, length, drop};
ghost use Rattle.std.specs.Float.Ieee.{of_bits};
ghost use Rattle.std.specs.Float.{binary32};
ghost use Rattle.text.specs.Fields.{fields_of};
ghost use Rattle.stream_saved.specs.Fields.{finite_only, of_word, in256ths, of_whole, Small, letter_of, energy_of};
ghost use Rattle.stream_saved.specs.Lines.{letter, refused_as, answer_restored, restoring, said_with, said_restored};
ghost use Rattle.stream_saved.specs.Loop.{none_read, read_field, read_from, refusal_fields, record_of_fields};

use super::{Energy, Fields, Restored, WithRecord};
use entcode::{Refusal, Verdict};
use stream::Record;
use text::fields::field;
use text::read;

// The f32 of a bit pattern, if it is finite.
fn finite_of(b: u32) -> Energy
    ensures { result ≡ finite_only (of_bits binary32 b) }
{
    if b % 2147483648 > 2139095040 {
        return Energy::Wild;
    }
    let x = f32::from_bits(b);
    if x.is_finite() {
        return Energy::Is(x);
    }
    Energy::Wild
}

// What eight hex digits say.
fn of_word(n: Option<u32>) -> Energy
    ensures { result ≡ of_word n }
{
    match n {
        Some(b) => finite_of(b),
        None => Energy::Wrong,
    }
}

// z / 256, exactly.
fn in_256ths(z: i32) -> f32
    requires { nat_abs z ≤ 32768 }
    ensures { result ≡ in256ths z }
{
    z as f32 / 256.0
}

// What a whole number of 256ths says.
fn of_whole(n: Option<i32>) -> Energy
    requires { Small n }
    ensures { result ≡ of_whole n }
{
    match n {
        Some(z) => Energy::Is(in_256ths(z)),
        None => Energy::Wrong,
    }
}

// What a field of a line with this letter says.
fn energy_of(letter: u8, field: &[u8]) -> Energy
    ensures { result ≡ energy_of letter field.now }
{
    if letter == b'E' {
        of_word(read::word(field))
    } else {
        of_whole(read::signed_in(field, -32768, 32767))
    }
}

// Nothing read yet.
fn none_read() -> Fields
    ensures { result ≡ none_read }
{
    let Record { energies, .. } = Record::fresh();
    Fields {
        good: true,
        tame: true,
        e: energies,
    }
}

// What field k of the energies says, put to the others.
fn read_one(mut f: Fields, k: usize, v: Energy) -> Fields
    requires { k < 42 }
    ensures { result ≡ read_field f k v }
{
    match v {
        Energy::Is(x) => f.e[k] = x,
        Energy::Wild => {
            f.e[k] = 0.0;
            f.tame = false;
        }
        Energy::Wrong => {
            f.e[k] = 0.0;
            f.good = false;
        }
    }
    f
}

// The 42 energies of a line, whose fields are gone through once.
fn energies(letter: u8, s: &[u8]) -> Fields
    requires { length (fields_of s.now) ≡ 44 }
    ensures { result ≡ read_from none_read 0 (map (energy_of letter) (drop 2 (fields_of s.now))) }
{
    let mut f = none_read();
    for (k, field) in s.split(|b| *b == b'\t').skip(2).enumerate() {
        f = read_one(f, k, energy_of(letter, field));
    }
    f
}

// The letter of a field, 0 where it is no single byte: `letter_of` says so, and of the letters only two are known.
fn letter_of(s: &[u8]) -> u8
    ensures { result ≡ letter_of s.now }
{
    match s {
        [letter] => *letter,
        _ => 0,
    }
}

// The line's letter.
fn letter_at(s: &[u8]) -> u8
    ensures { result ≡ letter s.now }
{
    letter_of(field(s, 0))
}

// A refusal, whatever says it, and a record that every call refuses, so that a caller who overlooks the refusal applies nothing.
pub fn refused<V: Verdict>(no: V) -> WithRecord<V>
    ensures { said_with V.number result ≡ refused_as (V.number no) }
{
    let Record { energies, .. } = Record::fresh();
    WithRecord {
        answer: no,
        rec: Record {
            energies,
            next: 4294967296,
        },
    }
}

// What a line of this next number, letter and energies answers.
fn answer(n: Option<u32>, letter: u8, f: Fields) -> Restored
    ensures { said_restored result ≡ answer_restored (refusal_fields n letter f) (record_of_fields n f) }
{
    let Some(next) = n else {
        return refused(Err(Refusal::Number));
    };
    let known = (letter == b'E') | (letter == b'Q');
    match entcode::refusal_of(true, known & f.good, f.tame, Ok(()), true, true) {
        Ok(()) => {
            let energies = f.e;
            WithRecord {
                answer: Ok(()),
                rec: Record {
                    energies,
                    next: u64::from(next),
                },
            }
        }
        Err(why) => refused(Err(why)),
    }
}

// A line of 44 fields.
pub fn line(s: &[u8]) -> Restored
    requires { length (fields_of s.now) ≡ 44 }
    ensures { said_restored result ≡ restoring s.now }
{
    let letter = letter_at(s);
    let n = read::number_at(s, 1, 4294967295);
    let f = energies(letter, s);
    answer(n, letter, f)
}
