// Frames on a stream record, saved and restored. tools/compare --record stream makes the requests and the answers; one a line, fields separated by tabs:
//   E.. or Q..  a saved line is restored; answered by R and the code
//   F           a frame: number, C, LM, start, end, intra, the reader's eleven numbers in the crate's order, the packet in hex. It is tried with
//               the number after its own (a skip), with its own, and once more (a repeat); answered by F, the three codes and the reader after
//               the second. Then the record is saved, which is answered by its line, or S and the code; the record goes on as restored from it
//   N           a fresh record
//   T           the record's next number becomes the sum of two numbers
//   X           an energy, by its place, becomes a NaN (0), an infinity (1) or the negative one (2)
#![tactic(auto)]

ghost use Rattle.std.specs.Prelude.{◌≤◌, length};

use entcode::Refusal;
use entdec::Reader;
use std::io::{Print, Read, Stdin, Stdout};
use stream::{Framed, Record};
use text::fields::field;
use text::read::{number_at, signed_at};
use text::write::decimal;

// The number in a field, 0 where there is none.
fn count(s: &[u8], n: usize) -> u32 {
    number_at(s, n, u32::MAX).unwrap_or(0)
}

// The signed number in a field, 0 where there is none.
fn whole(s: &[u8], n: usize) -> i32 {
    signed_at(s, n).unwrap_or(0)
}

// The reader of the eleven numbers from field 7 on.
fn reader(s: &[u8]) -> Reader {
    Reader {
        storage: count(s, 7),
        ends: count(s, 8),
        window: count(s, 9),
        waiting: count(s, 10),
        total: count(s, 11),
        offs: count(s, 12),
        rng: count(s, 13),
        val: count(s, 14),
        ext: count(s, 15),
        rem: count(s, 16),
        error: 0 < count(s, 17),
    }
}

// A text, as it is.
fn say_text(stdout: Stdout, s: &[u8]) {
    let _ = stdout.write_all(s);
}

// A tab and a number.
fn say(stdout: Stdout, v: u32) {
    let mut figures = [0u8; 10];
    let n = decimal(v, &mut figures, 0);
    say_text(stdout, b"\t");
    say_text(stdout, &figures[..n]);
}

// Each of some numbers.
fn say_all(stdout: Stdout, v: &[u32]) {
    for &x in v {
        say(stdout, x);
    }
}

// The reader's numbers.
fn say_reader(stdout: Stdout, d: Reader) {
    let mark = u32::from(d.error);
    let v = [
        d.storage, d.ends, d.window, d.waiting, d.total, d.offs, d.rng, d.val, d.ext, d.rem, mark,
    ];
    say_all(stdout, &v);
}

// A letter and a code, 0 or a refusal's number, as it is printed.
fn say_code(stdout: Stdout, letter: &[u8], code: u32) {
    say_text(stdout, letter);
    say(stdout, code);
    say_text(stdout, b"\n");
}

// The code of an answer, 0 or a refusal's number.
fn code_of(answer: Result<(), Refusal>) -> u32 {
    answer.err().map_or(0, u32::from)
}

// The record that a line says, or else the one that was there.
fn restore(s: &[u8], rec: Record) -> Record {
    let r = stream_saved::restore(s);
    match r.answer {
        Ok(()) => r.rec,
        Err(_) => rec,
    }
}

// A saved line is restored.
fn restored(stdout: Stdout, s: &[u8], rec: Record) -> Record {
    say_code(stdout, b"R", code_of(stream_saved::restore(s).answer));
    restore(s, rec)
}

// The same, by way of the lent bytes.
fn put(stdout: Stdout, rec: Record, line: &mut [u8]) -> Record {
    match stream_saved::save(rec, line) {
        Ok(n) => {
            if n <= line.len() {
                say_text(stdout, &line[..n]);
                say_text(stdout, b"\n");
                return restore(&line[..n], rec);
            }
            rec
        }
        Err(why) => {
            say_code(stdout, b"S", u32::from(why));
            rec
        }
    }
}

// The record is saved, and goes on as restored.
fn save(stdout: Stdout, rec: Record) -> Record {
    let mut line = [0u8; 390];
    put(stdout, rec, &mut line)
}

// Frame `number`, with the other numbers of a request.
fn apply(s: &[u8], d: Reader, packet: &[u8], number: u64, rec: Record) -> Framed {
    rec.frame(
        d,
        packet,
        number,
        whole(s, 2),
        whole(s, 3),
        whole(s, 4),
        whole(s, 5),
        whole(s, 6),
    )
}

// A skip, the frame, and its repeat.
fn thrice(stdout: Stdout, s: &[u8], packet: &[u8], rec: Record) -> Record {
    let number = u64::from(count(s, 1));
    let d = reader(s);
    let skip = apply(s, d, packet, number + 1, rec);
    let own = apply(s, d, packet, number, skip.rec);
    let again = apply(s, d, packet, number, own.rec);
    say_text(stdout, b"F");
    say_all(
        stdout,
        &[
            code_of(skip.answer),
            code_of(own.answer),
            code_of(again.answer),
        ],
    );
    say_reader(stdout, own.next);
    say_text(stdout, b"\n");
    save(stdout, again.rec)
}

// The packet of a request goes to the lent bytes.
fn unpack(stdout: Stdout, s: &[u8], packet: &mut [u8], rec: Record) -> Record {
    let digits = field(s, 18);
    let n = digits.len() / 2;
    text::hex::bytes(digits, packet);
    if n <= packet.len() {
        return thrice(stdout, s, &packet[..n], rec);
    }
    rec
}

// A request for a frame.
fn frame(stdout: Stdout, s: &[u8], rec: Record) -> Record {
    let mut packet = [0u8; 1276];
    unpack(stdout, s, &mut packet, rec)
}

// A value that is not finite.
fn wild(which: u32) -> f32 {
    match which {
        0 => f32::NAN,
        1 => f32::INFINITY,
        _ => f32::NEG_INFINITY,
    }
}

// An energy becomes such a value.
fn spoil(rec: Record, place: usize, which: u32) -> Record {
    let mut e = rec.energies;
    if place < 42 {
        e[place] = wild(which);
    }
    Record {
        energies: e,
        next: rec.next,
    }
}

// The next number becomes another.
fn number(rec: Record, next: u64) -> Record {
    let e = rec.energies;
    Record { energies: e, next }
}

// One request.
fn answer(stdout: Stdout, s: &[u8], rec: Record) -> Record {
    match s {
        [b'F', ..] => frame(stdout, s, rec),
        [b'N', ..] => Record::fresh(),
        [b'T', ..] => number(rec, u64::from(count(s, 1)) + u64::from(count(s, 2))),
        [b'X', ..] => spoil(rec, count(s, 1) as usize, count(s, 2)),
        _ => restored(stdout, s, rec),
    }
}

// Every line of the input.
fn run(stdout: Stdout, s: &[u8]) {
    let mut rec = Record::fresh();
    for line in s.split_inclusive(|b| *b == b'\n') {
        rec = answer(stdout, line.strip_suffix(b"\n").unwrap_or(line), rec);
    }
}

// Reads until the buffer is full, the input ends or a read fails; how many bytes came.
fn read_full(mut stdin: Stdin, s: &mut [u8]) -> usize
    ensures { result ≤ length s.new }
{
    let mut done: usize = 0;
    while done < s.len() {
        let n = stdin.read(&mut s[done..]).unwrap_or(0);
        if n == 0 {
            return done;
        }
        done += n;
    }
    done
}

// Reads the whole input, and answers it.
fn main(rt: HostRuntime) {
    let mut input = [0u8; 65536];
    let n = read_full(rt.stdin(), &mut input);
    run(rt.stdout(), &input[..n]);
}
