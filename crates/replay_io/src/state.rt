// A coder's state from the numbers of a request, which stand in a list l.
use crate::list::word;
use entdec::Reader;
use entenc::Writer;
use entenc_sink::Sink;

// The reader whose numbers begin a list, in the order in which answers have them.
pub fn reader_of(l: &[i32]) -> Reader {
    Reader {
        storage: word(l, 0),
        offs: word(l, 1),
        ends: word(l, 2),
        window: word(l, 3),
        waiting: word(l, 4),
        total: word(l, 5),
        rng: word(l, 6),
        val: word(l, 7),
        ext: word(l, 8),
        rem: word(l, 9),
        error: word(l, 10) != 0,
    }
}

// The writer whose numbers begin a list.
pub fn writer_of(l: &[i32]) -> Writer {
    let sink = Sink {
        storage: word(l, 0),
        offs: word(l, 1),
        ends: word(l, 2),
        error: word(l, 10) != 0,
    };
    Writer {
        sink,
        rem: word(l, 9),
        ext: word(l, 8),
        val: word(l, 7),
        rng: word(l, 6),
        total: word(l, 5),
        window: word(l, 3),
        waiting: word(l, 4),
        closed: word(l, 11) != 0,
    }
}
