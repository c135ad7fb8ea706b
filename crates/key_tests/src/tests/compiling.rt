//! Keymap texts, the tables that they are compiled to, and their faults.
use super::checks::{check, check_made};
use super::compiled::{is_listed, tables_of};
use key_text::KeyError;
use std::alloc::Global;
use vt_base::NoMemory;

// A text, and the text of its listing.
const LISTINGS: &[(&[u8], &[u8])] = &[
    (
        b"keymaps 0-1\nkeycode 2 = one exclam\nstring F1 = \"\\033[A\"\ncompose '`' 'a' to U+00E0\n",
        b"maps 0 1\nmap 0 2 1 49\nmap 1 2 1 33\nfunc 0 1b5b41\npair 96 97 224\n",
    ),
    (
        b"keymaps 0-1,4\nkeycode 30 = a\n",
        b"maps 0 1 4\nmap 0 30 2 97\nmap 1 30 2 65\nmap 4 30 1 1\n",
    ),
    (b"", b"maps 0 1 2 4 5 8 12\n"),
    (
        b"keycode 30 = U+0041\n",
        b"maps 0 1 2 4 5 8 12\nmap 0 30 2 65\nmap 1 30 2 97\nmap 2 30 2 65\nmap 4 30 1 1\nmap 5 30 1 1\nmap 8 30 3 65\nmap 12 30 3 1\n",
    ),
    (
        b"keymaps 0-1\nkeycode 2 = one two\nplain keycode 2 = three\nkeycode 2 = four\nshift keycode 2 = five\naltgr keycode 2 = b",
        b"maps 0 1 2\nmap 0 2 1 52\nmap 1 2 1 53\nmap 2 2 1 98\n",
    ),
    (
        b"keymaps 0,8-9,16\nkeycode 2 = one VoidSymbol\nkeycode 3 = two a VoidSymbol\nkeycode 4 = U+0080\nkeycode 5 = U+0080 VoidSymbol\nshift alt keycode 4 = three\nkeycode 6 = +Z\nalt_is_meta",
        b"maps 0 8 9 16\nmap 0 2 1 49\nmap 0 3 1 50\nmap 0 4 1 128\nmap 0 5 1 128\nmap 0 6 2 90\nmap 8 2 3 49\nmap 8 3 1 97\nmap 8 4 1 128\nmap 8 6 3 90\nmap 9 4 1 51\nmap 9 6 3 122\nmap 16 4 1 128\n",
    ),
    (
        b"keymaps 3\nstring F2 = \"a\"\nstring F2 = \"b\"\ncompose a a to b\ncompose a a to c\ncompose a a to b",
        b"maps 3\nfunc 1 62\npair 97 97 98\npair 97 97 99\npair 97 97 98\n",
    ),
];

#[test]
fn texts_have_their_listings(rt: HostRuntime) {
    for &(text, listing) in LISTINGS {
        check(&rt, is_listed(rt.alloc(), text, listing), text);
    }
}

#[test]
fn usual_strings_and_pairs(rt: HostRuntime) {
    let text = b"strings as usual\ncompose as usual";
    check(&rt, is_listed(rt.alloc(), text, USUAL), text);
}

// A text, and its first fault: the kind, the line and the column.
const FAULTS: &[(&[u8], u16, u32, u32)] = &[
    (b"keycode 1 = a\nkeymaps 0", 5, 2, 1),
    (b"shift keycode 1 = a\n keymaps 0\nkeycode 1 = a b", 5, 2, 2),
    (b"keycode 30 = foo", 2, 1, 14),
    (b"\n\tkeycode 30 = a b c d e f g h", 4, 2, 2),
    (b"keymaps 0\nkeycode 30 = a b\nkeymaps 1", 5, 3, 1),
    (
        b"compose as usual\ncompose as usual\ncompose as usual\n  compose as usual",
        10,
        4,
        3,
    ),
];

fn is_fault(alloc: Global, text: &[u8], wanted: (u16, u32, u32)) -> Result<bool, NoMemory> {
    match tables_of(alloc, text) {
        Ok(_tables) => Ok(false),
        Err(KeyError::Fault(fault)) => Ok((fault.kind, fault.line, fault.column) == wanted),
        Err(KeyError::NoMemory) => Err(NoMemory),
    }
}

#[test]
fn first_fault_has_its_place(rt: HostRuntime) {
    for &(text, kind, line, column) in FAULTS {
        check_made(&rt, is_fault(rt.alloc(), text, (kind, line, column)), text);
    }
}

// A text of so many pairs.
fn add_pairs(text: &mut Vec<u8>, count: u32) -> Result<(), NoMemory> {
    for _ in 0..count {
        text.extend_from_slice(b"compose a a to b\n")?;
    }
    Ok(())
}

fn has_pairs(alloc: Global, text: &[u8], count: usize) -> Result<bool, NoMemory> {
    match tables_of(alloc, text) {
        Ok(tables) => Ok(tables.pairs().len() == count),
        Err(_error) => Ok(false),
    }
}

fn takes_pairs(alloc: Global) -> Result<bool, NoMemory> {
    let mut text = Vec::new(alloc);
    add_pairs(&mut text, 256)?;
    has_pairs(alloc, text.as_slice(), 256)
}

fn refuses_pairs(alloc: Global) -> Result<bool, NoMemory> {
    let mut text = Vec::new(alloc);
    add_pairs(&mut text, 257)?;
    is_fault(alloc, text.as_slice(), (10, 257, 1))
}

#[test]
fn pairs_are_256_at_most(rt: HostRuntime) {
    check_made(&rt, takes_pairs(rt.alloc()), "256 pairs");
    check_made(&rt, refuses_pairs(rt.alloc()), "257 pairs");
}

// The listing of `strings as usual` and `compose as usual`.
#[rattlefmt::skip]
const USUAL: &[u8] = b"maps 0 1 2 4 5 8 12\n\
        func 0 1b5b5b41\n\
        func 1 1b5b5b42\n\
        func 2 1b5b5b43\n\
        func 3 1b5b5b44\n\
        func 4 1b5b5b45\n\
        func 5 1b5b31377e\n\
        func 6 1b5b31387e\n\
        func 7 1b5b31397e\n\
        func 8 1b5b32307e\n\
        func 9 1b5b32317e\n\
        func 10 1b5b32337e\n\
        func 11 1b5b32347e\n\
        func 12 1b5b32357e\n\
        func 13 1b5b32367e\n\
        func 14 1b5b32387e\n\
        func 15 1b5b32397e\n\
        func 16 1b5b33317e\n\
        func 17 1b5b33327e\n\
        func 18 1b5b33337e\n\
        func 19 1b5b33347e\n\
        func 20 1b5b317e\n\
        func 21 1b5b327e\n\
        func 22 1b5b337e\n\
        func 23 1b5b347e\n\
        func 24 1b5b357e\n\
        func 25 1b5b367e\n\
        func 26 1b5b4d\n\
        func 29 1b5b50\n\
        pair 96 65 192\n\
        pair 96 69 200\n\
        pair 96 73 204\n\
        pair 96 79 210\n\
        pair 96 85 217\n\
        pair 96 97 224\n\
        pair 96 101 232\n\
        pair 96 105 236\n\
        pair 96 111 242\n\
        pair 96 117 249\n\
        pair 39 65 193\n\
        pair 39 69 201\n\
        pair 39 73 205\n\
        pair 39 79 211\n\
        pair 39 85 218\n\
        pair 39 89 221\n\
        pair 39 97 225\n\
        pair 39 101 233\n\
        pair 39 105 237\n\
        pair 39 111 243\n\
        pair 39 117 250\n\
        pair 39 121 253\n\
        pair 94 65 194\n\
        pair 94 69 202\n\
        pair 94 73 206\n\
        pair 94 79 212\n\
        pair 94 85 219\n\
        pair 94 97 226\n\
        pair 94 101 234\n\
        pair 94 105 238\n\
        pair 94 111 244\n\
        pair 94 117 251\n\
        pair 126 65 195\n\
        pair 126 78 209\n\
        pair 126 79 213\n\
        pair 126 97 227\n\
        pair 126 110 241\n\
        pair 126 111 245\n\
        pair 34 65 196\n\
        pair 34 69 203\n\
        pair 34 73 207\n\
        pair 34 79 214\n\
        pair 34 85 220\n\
        pair 34 97 228\n\
        pair 34 101 235\n\
        pair 34 105 239\n\
        pair 34 111 246\n\
        pair 34 117 252\n\
        pair 34 121 255\n\
        pair 44 67 199\n\
        pair 44 99 231\n\
        pair 65 69 198\n\
        pair 97 101 230\n\
        pair 79 47 216\n\
        pair 111 47 248\n\
        pair 115 115 223\n\
        pair 65 65 197\n\
        pair 97 97 229\n\
        pair 45 68 208\n\
        pair 45 100 240\n\
        pair 84 72 222\n\
        pair 116 104 254\n\
        pair 60 60 171\n\
        pair 62 62 187\n\
        pair 63 63 191\n\
        pair 33 33 161\n";
