//! Keymap texts and their faults.
use super::checks::check_made;
use key_syms::Action;
use key_text::{Includes, KeyError, Line, LineKind, TableSet, parse};
use std::alloc::Global;
use vt_base::NoMemory;

// A text, and its first fault: the kind, the line and the column.
type Row = (&'static [u8], u16, u32, u32);

const FAULTS: &[Row] = &[
    // Lines of no form.
    (b"frob 1", 1, 1, 1),
    (b"\n \tkeycode x = a", 1, 2, 11),
    (b"keycode 30=a", 1, 1, 9),
    (b"keycode", 1, 1, 8),
    (b"keycode 30 # none", 1, 1, 18),
    (b"shift frob 30 = a", 1, 1, 7),
    (b"strings as foo", 1, 1, 12),
    (b"keymaps 0,x", 1, 1, 9),
    (b"keycode 08 = a", 1, 1, 9),
    (b"keycode 30 =\\\r\nfoo", 1, 1, 12),
    // Words that aren't names or numbers, or numbers out of their range.
    (b"keycode 30 = foo", 2, 1, 14),
    (b"keycode 30 = a 256", 2, 1, 16),
    (b"string Shift = \"a\"", 2, 1, 8),
    (b"compose '`' +a to b", 2, 1, 13),
    (b"compose U+D800 a to b", 2, 1, 9),
    (b"keymaps 0-256", 3, 1, 9),
    (b"keymaps 2-1", 3, 1, 9),
    (b"keycode 0 = a", 3, 1, 9),
    (b"keycode 256 = a", 3, 1, 9),
    (b"include \\\n  \"bad\"", 2, 1, 1),
    (b"keycode 30 = \\\r\nfoo", 2, 2, 1),
    // Numbers of symbols and pairs, strings and texts.
    (b"keycode 30 =", 4, 1, 13),
    (b"shift keycode 30 = ", 4, 1, 20),
    (b"keycode 30 =\\\n", 4, 1, 13),
    (b"string F1 = \"\\400\"", 6, 1, 13),
    (b"string F1 = \"a", 6, 1, 13),
    (b"string F1 = \"a\"b", 6, 1, 13),
    (b"string F1 = 'a'", 6, 1, 13),
    (b"string F1 =", 6, 1, 12),
    (b"compose 'ab' a to b", 6, 1, 9),
    (b"keycode 30 = \xC3(", 6, 1, 14),
    (b"keycode 30 = ab\xE2\x82", 6, 1, 16),
    (b"include 'no' x", 6, 1, 9),
    (b"include \"bad\" \xFF", 6, 1, 15),
    // Texts that are included, and the rest of a line.
    (b"include \"no\" # text", 7, 1, 9),
    (b"\n  include \"again\"", 8, 2, 3),
    (b"include \"again\" x", 9, 1, 17),
    (b"include \"no\" x", 7, 1, 9),
    (b"include \"bad\" x", 9, 1, 15),
    (b"include \"no\" x \xFF", 7, 1, 9),
    (b"alt_is_meta x", 9, 1, 13),
    (b"string F1 = \"\xC3\xA9\" x", 9, 1, 18),
    (b"shift keycode 1 = a b", 9, 1, 21),
];

fn is_fault(
    alloc: Global,
    includes: &Includes,
    text: &[u8],
    fault: (u16, u32, u32),
) -> Result<bool, NoMemory> {
    match parse(alloc, text, includes) {
        Ok(_lines) => Ok(false),
        Err(KeyError::Fault(found)) => Ok((found.kind, found.line, found.column) == fault),
        Err(KeyError::NoMemory) => Err(NoMemory),
    }
}

// Texts to include: one that includes itself, one that isn't reached, one of a comment, and one with a fault.
const INCLUDED: &[(&[u8], &[u8])] = &[
    (b"again", b"\ninclude \"again\""),
    (b"again", b"alt_is_meta"),
    (b"none", b"# nothing"),
    (b"bad", b"\nkeycode 1 = foo"),
];

fn add_all(
    alloc: Global,
    includes: &mut Includes,
    texts: &[(&[u8], &[u8])],
) -> Result<(), NoMemory> {
    for &(name, text) in texts {
        includes.add(alloc, name, text)?;
    }
    Ok(())
}

// The texts to include; none if memory ran out, so that the rows fail.
fn included(alloc: Global, texts: &[(&[u8], &[u8])]) -> Includes {
    let mut includes = Includes::none(alloc);
    match add_all(alloc, &mut includes, texts) {
        Ok(()) => includes,
        Err(NoMemory) => Includes::none(alloc),
    }
}

#[test]
fn first_fault_has_its_place(rt: HostRuntime) {
    let includes = included(rt.alloc(), INCLUDED);
    for &(text, kind, line, column) in FAULTS {
        let made = is_fault(rt.alloc(), &includes, text, (kind, line, column));
        check_made(&rt, made, text);
    }
}

// A piece so many times between two other texts, and the first fault of the whole.
type Long = (
    &'static [u8],
    &'static [u8],
    u32,
    &'static [u8],
    (u16, u32, u32),
);

const LONG: &[Long] = &[
    (b"string F1 = \"", b"a", 256, b"\"", (11, 1, 13)),
    (b"", b"include \"none\"\n", 1001, b"", (12, 1001, 9)),
    (
        b"",
        b"include \"none\"\n",
        1000,
        b"include \"none\" x",
        (12, 1001, 9),
    ),
];

fn add_long(text: &mut Vec<u8>, long: &Long) -> Result<(), NoMemory> {
    let (front, piece, times, back, _) = *long;
    text.extend_from_slice(front)?;
    for _ in 0..times {
        text.extend_from_slice(piece)?;
    }
    Ok(text.extend_from_slice(back)?)
}

fn is_long_fault(alloc: Global, includes: &Includes, long: &Long) -> Result<bool, NoMemory> {
    let (_, _, _, _, fault) = *long;
    let mut text = Vec::new(alloc);
    add_long(&mut text, long)?;
    is_fault(alloc, includes, text.as_slice(), fault)
}

#[test]
fn long_texts_have_their_faults(rt: HostRuntime) {
    let includes = included(rt.alloc(), INCLUDED);
    for long in LONG {
        let (_, piece, ..) = *long;
        check_made(&rt, is_long_fault(rt.alloc(), &includes, long), piece);
    }
}

const MORE: &[(&[u8], &[u8])] = &[(b"more", b"\n\nALT_IS_META\r\ncharset \"utf-8\"")];

const LINES: &[u8] = b"! comment \xFF \"\nKeymaps 0-2,4 # \\\n\"\nkeycode 0x1E = a \\\n +b U+0041\n\
        Plain SHIFT control keycode 030 = Tab#\nstring F1 = \"\\033[A\\n\\\\\\\"#!\"\n\
        compose '`' 'a' to '\xC3\xA0'\n include \"more\"\nstrings As usual\n\
        compose as usual for \"latin1\"";

// What a line of a keymap text is wanted to be: its tables; its code with the kind and the value of each
// symbol; its table, code and symbol; its function key and string; its accent, base and result.
#[derive(Clone, Copy)]
enum Wanted {
    Keymaps(&'static [u8]),
    Keys(u8, &'static [(u8, u16)]),
    One(u8, u8, (u8, u16)),
    Text(u8, &'static [u8]),
    Compose(u16, u16, u16),
    AltIsMeta,
    UsualStrings,
    UsualPairs,
}

// The lines of `LINES` by keymaps(5), each with the line and the column of its first word; that of the
// included text has the place of its include line.
const WANTED: &[(Wanted, u32, u32)] = &[
    (Wanted::Keymaps(&[0, 1, 2, 4]), 2, 1),
    (Wanted::Keys(30, &[(1, 0x61), (2, 0x62), (1, 0x41)]), 4, 1),
    (Wanted::One(5, 24, (1, 9)), 6, 1),
    (Wanted::Text(0, b"\x1B[A\n\\\"#!"), 7, 1),
    (Wanted::Compose(0x60, 0x61, 0xE0), 8, 1),
    (Wanted::AltIsMeta, 9, 2),
    (Wanted::UsualStrings, 10, 1),
    (Wanted::UsualPairs, 11, 1),
];

// Whether a set has these tables alone.
fn has_tables(set: &TableSet, tables: &[u8]) -> bool {
    for t in 0..=255 {
        if set.has(t) != tables.contains(&t) {
            return false;
        }
    }
    true
}

fn is_action(action: Action, wanted: (u8, u16)) -> bool {
    (action.kind, action.value) == wanted
}

// Whether these are the symbols, as many as are wanted.
fn has_symbols(syms: &[Action], wanted: &[(u8, u16)]) -> bool {
    for (i, action) in syms.iter().enumerate() {
        match wanted.get(i) {
            Some(symbol) => {
                if !is_action(*action, *symbol) {
                    return false;
                }
            }
            None => return false,
        }
    }
    syms.len() == wanted.len()
}

fn is_kind(kind: &LineKind, wanted: Wanted) -> bool {
    match (kind, wanted) {
        (LineKind::Keymaps(set), Wanted::Keymaps(tables)) => has_tables(set, tables),
        (LineKind::Keys { code, syms }, Wanted::Keys(n, symbols)) => {
            *code == n && has_symbols(syms.as_slice(), symbols)
        }
        (
            LineKind::One {
                table,
                code,
                action,
            },
            Wanted::One(t, n, symbol),
        ) => *table == t && *code == n && is_action(*action, symbol),
        (LineKind::Text { func, text }, Wanted::Text(n, bytes)) => {
            *func == n && text.as_slice() == bytes
        }
        (LineKind::Compose(pair), Wanted::Compose(accent, base, result)) => {
            (pair.accent, pair.base, pair.result) == (accent, base, result)
        }
        (LineKind::AltIsMeta, Wanted::AltIsMeta) => true,
        (LineKind::UsualStrings, Wanted::UsualStrings) => true,
        (LineKind::UsualPairs, Wanted::UsualPairs) => true,
        _ => false,
    }
}

fn is_line(line: &Line, wanted: (Wanted, u32, u32)) -> bool {
    let (kind, row, column) = wanted;
    is_kind(&line.kind, kind) && (line.line, line.column) == (row, column)
}

// Whether the line at this place is the wanted one; false after the last of either.
fn has_line(lines: &[Line], i: usize) -> bool {
    match (lines.get(i), WANTED.get(i)) {
        (Some(line), Some(wanted)) => is_line(line, *wanted),
        _ => false,
    }
}

fn are_wanted(lines: &[Line]) -> bool {
    for i in 0..WANTED.len() {
        if !has_line(lines, i) {
            return false;
        }
    }
    lines.len() == WANTED.len()
}

fn has_lines(alloc: Global, includes: &Includes) -> Result<bool, NoMemory> {
    match parse(alloc, LINES, includes) {
        Ok(lines) => Ok(are_wanted(lines.as_slice())),
        Err(KeyError::Fault(_)) => Ok(false),
        Err(KeyError::NoMemory) => Err(NoMemory),
    }
}

#[test]
fn lines_are_read(rt: HostRuntime) {
    let includes = included(rt.alloc(), MORE);
    check_made(&rt, has_lines(rt.alloc(), &includes), LINES);
}
