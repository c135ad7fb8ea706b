//! Journal texts of both versions, whole and cut at each byte, with the fault of each, by docs/reference/journal.md.
use crate::tests::checks::{check, check_made};
use std::alloc::Global;
use vt_base::NoMemory;
use vt_journal::{JError, parse, version_of};

// A text, and the kind and the line of its fault; 0 and the number of its entries, if it has none.
type Row = (&'static [u8], u16, u32);

const JOURNALS: &[Row] = &[
    // Texts without a fault.
    (b"%journal 1\n%end 0 0\n", 0, 0),
    (
        b"%journal 1\n1 0 open 1 = num 0\n64 4294967295 write 65535 - = err 9\n%end 2 128\n",
        0,
        2,
    ),
    (b"%journal 1\n0 0 scan e0 = ok\n%full 1 64 65\n", 0, 1),
    (
        b"%journal 1\n1 0 getstate 0 = state 255 18446744073709551615\n%end 1 64\n",
        0,
        1,
    ),
    (b"%journal 2\n%end 0 0\n", 0, 0),
    (
        b"%journal 2\nk0 0 scan e0 = ok\np1 0 open 1 = num 0\np64 4294967295 exit = err 9\n%end 3 192\n",
        0,
        3,
    ),
    // Faults of the first line.
    (b"", 40, 0),
    (b"%journal 1", 40, 0),
    (b"%journal 0\n%end 0 0\n", 40, 0),
    (b"%journal 3\n%end 0 0\n", 40, 0),
    (b"%journal 2", 40, 0),
    (b"%journal 02\n%end 0 0\n", 40, 0),
    (b" %journal 1\n%end 0 0\n", 40, 0),
    // Faults of the lines of version 1.
    (b"%journal 1\nk0 0 exit = ok\n%end 1 64\n", 41, 2),
    (b"%journal 1\np1 0 exit = ok\n%end 1 64\n", 41, 2),
    (b"%journal 1\n%end 0 0", 41, 2),
    (b"%journal 1\n1 0 exit = ok\n1 1 exit = o", 41, 3),
    (b"%journal 1\n1 0  exit = ok\n%end 1 64\n", 41, 2),
    (b"%journal 1\n1 00 exit = ok\n%end 1 64\n", 41, 2),
    (b"%journal 1\n65 0 exit = ok\n%end 1 64\n", 41, 2),
    (b"%journal 1\n1 4294967296 exit = ok\n%end 1 64\n", 41, 2),
    (b"%journal 1\n1 0 write 0 FF = num 1\n%end 1 65\n", 41, 2),
    (b"%journal 1\n1 0 exit = err 2\n%end 1 64\n", 41, 2),
    (b"%journal 1\n1 0 exit = ok \n%end 1 64\n", 41, 2),
    (b"%journal 1\n\n%end 0 0\n", 41, 2),
    (b"%journal 1\n%end 0 18446744073709551616\n", 41, 2),
    (b"%journal 1\n%full 0 0 4294967296\n", 41, 2),
    // Faults of the lines of version 2.
    (b"%journal 2\n0 0 exit = ok\n%end 1 64\n", 41, 2),
    (b"%journal 2\n1 0 exit = ok\n%end 1 64\n", 41, 2),
    (b"%journal 2\np0 0 exit = ok\n%end 1 64\n", 41, 2),
    (b"%journal 2\np65 0 exit = ok\n%end 1 64\n", 41, 2),
    (b"%journal 2\np01 0 exit = ok\n%end 1 64\n", 41, 2),
    (b"%journal 2\nk4 0 exit = ok\n%end 1 64\n", 41, 2),
    (b"%journal 2\nk 0 exit = ok\n%end 1 64\n", 41, 2),
    (b"%journal 2\nK0 0 exit = ok\n%end 1 64\n", 41, 2),
    // Ends that are missing, and texts after an end.
    (b"%journal 2\n", 42, 1),
    (b"%journal 2\np1 0 exit = ok\n%end 1 64\n%end 1 64\n", 43, 3),
    (b"%journal 1\n", 42, 1),
    (b"%journal 1\n1 0 exit = ok\n", 42, 2),
    (b"%journal 1\n%end 0 0\n%end 0 0\n", 43, 2),
    (b"%journal 1\n1 0 exit = ok\n%end 1 64\n ", 43, 3),
];

fn is_said(alloc: Global, text: &[u8], kind: u16, line: u32) -> Result<bool, NoMemory> {
    match parse(alloc, text) {
        Ok(journal) => Ok(kind == 0 && journal.entries.as_slice().len() == line as usize),
        Err(JError::Fault(fault)) => Ok(fault.kind == kind && fault.line == line),
        Err(JError::NoMemory) => Err(NoMemory),
    }
}

#[test]
fn reads_one_spelling(rt: HostRuntime) {
    for &(text, kind, line) in JOURNALS {
        check_made(&rt, is_said(rt.alloc(), text, kind, line), text);
    }
}

// Journals, and their versions.
const VERSIONS: &[(&[u8], u8)] = &[
    (b"%journal 1\n%end 0 0\n", 1),
    (b"%journal 2\n%end 0 0\n", 2),
];

fn has_version(alloc: Global, text: &[u8], version: u8) -> bool {
    match parse(alloc, text) {
        Ok(journal) => journal.version == version && version_of(text) == Some(version),
        Err(_error) => false,
    }
}

#[test]
fn tells_the_version(rt: HostRuntime) {
    for &(text, version) in VERSIONS {
        check(&rt, has_version(rt.alloc(), text, version), text);
    }
    let part = b"%journal 1";
    check(&rt, version_of(part).is_none(), part);
}

// The journal of a display that is handed over, in both versions.
const HANDOVERS: &[&[u8]] = &[
    b"%journal 1\n\
    0 0 exit = ok\n\
    1 0 open 1 = num 0\n\
    2 0 open 2 = num 0\n\
    1 1 signals = sigs 0\n\
    2 1 signals = sigs 0\n\
    1 2 setmode 0 1 0 10 12 0 = ok\n\
    2 2 activate 0 2 = ok\n\
    1 3 signals = sigs 512\n\
    2 3 signals = sigs 0\n\
    1 4 reldisp 0 1 = ok\n\
    2 4 exit = ok\n\
    1 5 waitsignal = wait\n\
    1 6 waitend = err 4\n\
    1 7 signals = sigs 0\n\
    1 8 exit = ok\n\
    %end 15 960\n",
    b"%journal 2\n\
    k0 0 exit = ok\n\
    p1 0 open 1 = num 0\n\
    p2 0 open 2 = num 0\n\
    p1 1 signals = sigs 0\n\
    p2 1 signals = sigs 0\n\
    p1 2 setmode 0 1 0 10 12 0 = ok\n\
    p2 2 activate 0 2 = ok\n\
    p1 3 signals = sigs 512\n\
    p2 3 signals = sigs 0\n\
    p1 4 reldisp 0 1 = ok\n\
    p2 4 exit = ok\n\
    p1 5 waitsignal = wait\n\
    p1 6 waitend = err 4\n\
    p1 7 signals = sigs 0\n\
    p1 8 exit = ok\n\
    %end 15 960\n",
];

// The length of a first line.
const FIRST: usize = 11;

// The kind and the line of the fault of a text that is cut: of its first line, of a line that has no LF, or of
// the last line, after which there is none.
fn fault_of_cut(text: &[u8]) -> (u16, u32) {
    if text.len() < FIRST {
        return (40, 0);
    }
    let mut lines = 0u32;
    for b in text {
        if *b == b'\n' {
            lines = lines.saturating_add(1);
        }
    }
    match text.last() {
        Some(b'\n') => (42, lines),
        _ => (41, lines.saturating_add(1)),
    }
}

fn is_cut_refused(alloc: Global, text: &[u8]) -> Result<bool, NoMemory> {
    let (kind, line) = fault_of_cut(text);
    is_said(alloc, text, kind, line)
}

#[test]
fn each_cut_has_its_fault(rt: HostRuntime) {
    for text in HANDOVERS {
        check_made(&rt, is_said(rt.alloc(), text, 0, 15), *text);
        for n in 1..text.len() {
            check_made(&rt, is_cut_refused(rt.alloc(), &text[..n]), n);
        }
    }
}
