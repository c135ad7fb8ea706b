//! Names of symbols, and actions.
use super::checks::check;
use key_syms::{Action, by_name, name_of, number};

// A name, the kind and the value of the action that it stands for, and the first name of that action.
type Row = (&'static str, u16, u16, &'static str);

const NAMES: &[Row] = &[
    ("VoidSymbol", 0, 0, "VoidSymbol"),
    ("Control_h", 1, 8, "BackSpace"),
    ("BackSpace", 1, 8, "BackSpace"),
    ("Escape", 1, 0x1B, "Escape"),
    ("65", 1, 65, "A"),
    ("0101", 1, 65, "A"),
    ("0x41", 1, 65, "A"),
    ("U+0041", 1, 65, "A"),
    ("U+00e9", 1, 0xE9, "eacute"),
    ("U+0100", 1, 0x100, "U+0100"),
    ("eth", 1, 0xF0, "eth"),
    ("division", 1, 0xF7, "division"),
    ("ydiaeresis", 1, 0xFF, "ydiaeresis"),
    ("euro", 1, 0x20AC, "euro"),
    ("+a", 2, 97, "+a"),
    ("+U+0061", 2, 97, "+a"),
    ("+U+FFFF", 2, 0xFFFF, "+U+FFFF"),
    ("Meta_Tab", 3, 9, "Meta_Tab"),
    ("F20", 4, 19, "F20"),
    ("Home", 4, 20, "Find"),
    ("PageDown", 4, 25, "Next"),
    ("F246", 4, 255, "F246"),
    ("KP_Period", 5, 16, "KP_Period"),
    ("Up", 6, 3, "Up"),
    ("dead_cedilla", 7, 5, "dead_cedilla"),
    ("CtrlR", 8, 7, "CtrlR"),
    ("AltGr_Lock", 9, 1, "AltGr_Lock"),
    ("SShiftL", 10, 4, "SShiftL"),
    ("Console_63", 11, 63, "Console_63"),
    ("Scroll_Backward", 12, 19, "Scroll_Backward"),
    ("Ascii_9", 13, 9, "Ascii_9"),
];

const NO_NAMES: &[&str] = &[
    "foo", "", "256", "+65", "08", "0X41", "U+D800", "U+041", "u+0041", "F247", "+Shift", "shift",
];

const NO_KINDS: &[u16] = &[14, 256, 65535];

// Kinds, and values that they don't have.
const NO_VALUES: &[(u16, u16)] = &[
    (0, 1),
    (1, 0xD800),
    (2, 0xDFFF),
    (3, 128),
    (4, 256),
    (5, 17),
    (11, 0),
    (11, 64),
    (12, 20),
];

fn is_named(row: &Row) -> bool {
    let (name, kind, value, first) = *row;
    match by_name(name) {
        Some(action) => Action::new(kind, value) == Some(action) && is_first(action, first),
        None => false,
    }
}

fn is_first(action: Action, first: &str) -> bool {
    name_of(action).as_str() == first
}

#[test]
fn names_stand_for_actions(rt: HostRuntime) {
    for row in NAMES {
        let (name, ..) = *row;
        check(&rt, is_named(row), name);
    }
    for &name in NO_NAMES {
        check(&rt, by_name(name).is_none(), name);
    }
    let large = b"0x10000".as_slice();
    check(&rt, number(large) == Some(65536), large);
}

#[test]
fn actions_have_kinds_and_values(rt: HostRuntime) {
    for &kind in NO_KINDS {
        check(&rt, Action::new(kind, 0).is_none(), u32::from(kind));
    }
    for &(kind, value) in NO_VALUES {
        check(&rt, Action::new(kind, value).is_none(), u32::from(kind));
    }
}
