//! Logs, their text, and the words of calls. Expected texts were written by hand from the rules of
//! the journal text.
mod all_words;
mod answer;
mod parsing;

use super::checks::{check, check_made};
use answer::Answer;
use std::alloc::Global;
use vt_base::{Bytes, CallerNo, Errno, NoMemory};
use vt_events::{Entry, charge};
use vt_journal::{Full, Log, Tail, add_hex, are_numbered, print, read_event};

// A caller, how many calls it made before, the words of its call, and the answer.
type Row = (u16, u32, &'static [u8], Answer);

const CALLS: &[Row] = &[
    (1, 0, b"open 1", Answer::Num(0)),
    (2, 0, b"open 2", Answer::Num(0)),
    (1, 1, b"write 0 6869", Answer::Num(2)),
    (1, 2, b"setmode 0 1 0 10 12 0", Answer::Done),
    (2, 1, b"activate 0 2", Answer::Done),
    (1, 3, b"reldisp 0 1", Answer::Done),
];

const ODD: &[Row] = &[
    (0, 3, b"scan e0", Answer::Done),
    (
        64,
        4_294_967_295,
        b"write 65535 -",
        Answer::Err(Errno::Badf),
    ),
    (0, 4, b"reldisp 0 2", Answer::Text(b"\x00\xA9")),
    (0, 5, b"reldisp 0 3", Answer::Text(b"")),
    (3, 0, b"open 0", Answer::Num(65_536)),
];

fn entry(alloc: Global, row: &Row) -> Result<Option<Entry>, NoMemory> {
    let (caller, seq, words, answer) = *row;
    let Some(caller) = CallerNo::new(caller) else {
        return Ok(None);
    };
    match read_event(alloc, words)? {
        Some(event) => Ok(Some(Entry {
            caller,
            seq,
            event,
            reply: answer.reply(alloc)?,
        })),
        None => Ok(None),
    }
}

// Some calls, the limits of their log, and its text in version 1 and in version 2.
type Case = (&'static [Row], u32, u64, &'static [u8], &'static [u8]);

const CASES: &[Case] = &[
    (
        CALLS,
        6,
        386,
        b"%journal 1\n\
        1 0 open 1 = num 0\n\
        2 0 open 2 = num 0\n\
        1 1 write 0 6869 = num 2\n\
        1 2 setmode 0 1 0 10 12 0 = ok\n\
        2 1 activate 0 2 = ok\n\
        1 3 reldisp 0 1 = ok\n\
        %end 6 386\n",
        b"%journal 2\n\
        p1 0 open 1 = num 0\n\
        p2 0 open 2 = num 0\n\
        p1 1 write 0 6869 = num 2\n\
        p1 2 setmode 0 1 0 10 12 0 = ok\n\
        p2 1 activate 0 2 = ok\n\
        p1 3 reldisp 0 1 = ok\n\
        %end 6 386\n",
    ),
    (
        CALLS,
        6,
        193,
        b"%journal 1\n\
        1 0 open 1 = num 0\n\
        2 0 open 2 = num 0\n\
        %full 2 128 66\n",
        b"%journal 2\n\
        p1 0 open 1 = num 0\n\
        p2 0 open 2 = num 0\n\
        %full 2 128 66\n",
    ),
    (
        ODD,
        4,
        1_000,
        b"%journal 1\n\
        0 3 scan e0 = ok\n\
        64 4294967295 write 65535 - = err 9\n\
        0 4 reldisp 0 2 = bytes 00a9\n\
        0 5 reldisp 0 3 = bytes -\n\
        %full 4 256 64\n",
        b"%journal 2\n\
        k0 3 scan e0 = ok\n\
        p64 4294967295 write 65535 - = err 9\n\
        k0 4 reldisp 0 2 = bytes 00a9\n\
        k0 5 reldisp 0 3 = bytes -\n\
        %full 4 256 64\n",
    ),
    (
        ODD,
        0,
        64,
        b"%journal 1\n%full 0 0 64\n",
        b"%journal 2\n%full 0 0 64\n",
    ),
];

// Adds the entry, the first by `push` and the others with their charge, and returns None; if there is no room, returns
// the numbers of the full log.
fn add(log: &mut Log, entry: Entry) -> Option<Full> {
    let charge = charge(&entry.event);
    let full = log.stop(charge);
    if log.room(charge) {
        if log.entries().is_empty() {
            log.push(entry);
        } else {
            log.push_counted(entry, charge);
        }
    }
    full
}

// The first rows, as many as the log's limits allow; and the numbers of the full log, if the next one finds no room.
fn fill(alloc: Global, log: &mut Log, rows: &[Row]) -> Result<Option<Full>, NoMemory> {
    for row in rows {
        let Some(entry) = entry(alloc, row)? else {
            return Ok(None);
        };
        if let Some(full) = add(log, entry) {
            return Ok(Some(full));
        }
    }
    Ok(None)
}

fn tail(log: &Log, full: Option<Full>) -> Tail {
    match full {
        Some(full) => Tail::Full(full),
        None => Tail::End {
            events: log.entries().len() as u32,
            bytes: log.bytes(),
        },
    }
}

fn is_old(alloc: Global, entries: &[Entry], tail: &Tail, wanted: &[u8]) -> Result<bool, NoMemory> {
    if !are_numbered(entries) {
        return Ok(false);
    }
    let mut text = Bytes::new(alloc);
    print(alloc, entries, 1, tail, &mut text)?;
    Ok(text.as_slice() == wanted)
}

fn is_new(alloc: Global, entries: &[Entry], tail: &Tail, wanted: &[u8]) -> Result<bool, NoMemory> {
    let mut text = Bytes::new(alloc);
    print(alloc, entries, 2, tail, &mut text)?;
    Ok(text.as_slice() == wanted)
}

fn is_told(alloc: Global, log: &Log, full: Option<Full>, case: &Case) -> Result<bool, NoMemory> {
    let (_, _, _, old, new) = *case;
    let tail = tail(log, full);
    Ok(is_old(alloc, log.entries(), &tail, old)? && is_new(alloc, log.entries(), &tail, new)?)
}

fn fills(alloc: Global, log: &mut Log, case: &Case) -> Result<bool, NoMemory> {
    let (rows, ..) = *case;
    let full = fill(alloc, log, rows)?;
    is_told(alloc, log, full, case)
}

fn is_printed(alloc: Global, case: &Case) -> Result<bool, NoMemory> {
    let (_, events, bytes, _, _) = *case;
    let bytes = bytes.min(1_073_741_824);
    let mut log = Log::with_room(alloc, events.min(1_000_000), bytes)?;
    fills(alloc, &mut log, case)
}

#[test]
fn prints_what_a_log_holds(rt: HostRuntime) {
    for case in CASES {
        let (_, _, _, _, new) = *case;
        check_made(&rt, is_printed(rt.alloc(), case), new);
    }
}

const SPELLED: &[&[u8]] = &[b"scan e0", b"open 0", b"open 65535", b"write 0 00ff"];

// Words that aren't those of a call.
const MISSPELLED: &[&[u8]] = &[
    // Numbers and blanks.
    b"scan 1",
    b"scan 1E",
    b"scan -",
    b"scan 1e1e",
    b"open  1",
    b" open 1",
    b"open 1 ",
    b"open 01",
    b"open +1",
    b"open 65536",
    b"open",
    b"open 1 1",
    b"Open 1",
    b"opens 1",
    b"exits",
    b"exit 1",
    b"exit ",
    b"waitend -",
    b"signals 0",
    // Numbers of words, and bytes.
    b"resize 0 25",
    b"resize 0 25 80 0",
    b"setent 0 1 30 0",
    b"setent 0 1 30 0 97 0",
    b"setfunc 0 1b5b41",
    b"setfunc 0 1 1B",
    b"setdia 0",
    b"getdia 0 -",
    b"setmap 0 0",
    b"kill 1 65536",
    b"poweroff",
    b"",
    b"write 0",
    b"write 0 ",
    b"write 0 FF",
    b"write 0 0",
    b"write 0 -00",
    b"write 0 00 -",
    b"write - -",
    b"setmode 0 1 0 10 12",
    b"reldisp 0 1\n",
];

// Whether memory was there, and the words are those of a call or aren't.
fn is_call(alloc: Global, words: &[u8], is: bool) -> bool {
    match read_event(alloc, words) {
        Ok(read) => read.is_some() == is,
        Err(NoMemory) => false,
    }
}

#[test]
fn knows_one_spelling(rt: HostRuntime) {
    for words in SPELLED {
        check(&rt, is_call(rt.alloc(), words, true), words);
    }
    for words in MISSPELLED {
        check(&rt, is_call(rt.alloc(), words, false), words);
    }
}

// Bytes, and their text after a number.
const HEXADECIMAL: &[(&[u8], &[u8])] = &[
    (b"", b"0 -"),
    (b"hi", b"0 6869"),
    (b"\x00\x0F\xA0\xFF", b"0 000fa0ff"),
];

fn is_added(alloc: Global, b: &[u8], wanted: &[u8]) -> Result<bool, NoMemory> {
    let mut text = Bytes::from_slice(alloc, b"0 ")?;
    add_hex(alloc, &mut text, b)?;
    Ok(text.as_slice() == wanted)
}

#[test]
fn adds_hexadecimal(rt: HostRuntime) {
    for &(b, wanted) in HEXADECIMAL {
        check_made(&rt, is_added(rt.alloc(), b, wanted), wanted);
    }
}
