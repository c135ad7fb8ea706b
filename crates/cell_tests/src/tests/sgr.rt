//! Parameters of SGR (CSI m) with the pen after them: attributes, folded colours, and the translation table.
use super::cells::attr_of;
use super::checks::check;
use vt_cells::Intensity::{Bold, Dim, Normal};
use vt_cells::{Attr, Intensity, Look};
use vt_sgr::{Pen, apply};

// A pen of white on black.
fn pen() -> Pen {
    Pen {
        attr: attr_of(7, 0, Normal, OFF),
        look: Look { ul: 15, dim: 8 },
        def_fg: 2,
        def_bg: 4,
        alt: false,
        display: false,
        toggle: false,
    }
}

// Parameters, and a pen of white on black after them: its colours, its intensity, and whether italic,
// underline, blink and reverse are on.
type Case = (&'static [u16], (u8, u8), Intensity, [bool; 4]);

const OFF: [bool; 4] = [false; 4];

const ON: [bool; 4] = [true; 4];

const UNDERLINED: [bool; 4] = [false, true, false, false];

fn is_drawn(case: &Case) -> bool {
    let (params, colours, wanted, on) = *case;
    let mut pen = pen();
    apply(&mut pen, params);
    let Attr {
        fg,
        bg,
        intensity,
        italic,
        underline,
        blink,
        reverse,
    } = pen.attr;
    (fg, bg) == colours && intensity == wanted && [italic, underline, blink, reverse] == on
}

const DRAWN: &[Case] = &[
    (&[], (2, 4), Normal, OFF),
    (&[1, 3, 4, 5, 7, 0], (2, 4), Normal, OFF),
    (&[1], (7, 0), Bold, OFF),
    (&[1, 2], (7, 0), Dim, OFF),
    (&[1, 22], (7, 0), Normal, OFF),
    (&[3, 4, 5, 7], (7, 0), Normal, ON),
    (&[3, 4, 5, 7, 23, 24, 25, 27], (7, 0), Normal, OFF),
    (&[21], (7, 0), Normal, UNDERLINED),
    (&[33, 45], (3, 5), Normal, OFF),
    (&[91, 103], (1, 3), Bold, OFF),
    (&[31, 41, 39], (2, 1), Normal, OFF),
    (&[31, 41, 49], (1, 4), Normal, OFF),
    (&[6, 28, 50, 98, 108, 65_535], (7, 0), Normal, OFF),
];

#[test]
fn draws_by_parameters(rt: HostRuntime) {
    for case in DRAWN {
        check(&rt, is_drawn(case), case.0);
    }
}

const FOLDED: &[Case] = &[
    // Index 196, and more than 255 in a part.
    (&[38, 5, 196], (1, 0), Bold, OFF),
    (&[38, 2, 999, 0, 0], (1, 0), Bold, OFF),
    // The intensity is the colour's, and a background has none.
    (&[1, 38, 5, 244], (7, 0), Normal, OFF),
    (&[38, 5, 8], (0, 0), Bold, OFF),
    (&[48, 5, 12], (7, 4), Normal, OFF),
    // The parameters after a whole form have an effect, also if the form has none.
    (&[48, 2, 128, 0, 127, 4], (7, 1), Normal, UNDERLINED),
    (&[38, 5, 1, 48, 5, 2], (1, 2), Normal, OFF),
    (&[38, 5, 256, 4], (7, 0), Normal, UNDERLINED),
    // A form that isn't whole ends the sequence.
    (&[38, 4], (7, 0), Normal, OFF),
    (&[4, 38, 5], (7, 0), Normal, UNDERLINED),
    (&[48, 2, 1, 4], (7, 0), Normal, OFF),
    (&[38, 0, 4, 4, 4, 4], (7, 0), Normal, OFF),
];

#[test]
fn folds_colours(rt: HostRuntime) {
    for case in FOLDED {
        check(&rt, is_drawn(case), case.0);
    }
}

// The parameters of a sequence, and after it: alternate table, control characters shown, high bit
// changed.
type Mapping = (&'static [u16], (bool, bool, bool));

const MAPPED: &[Mapping] = &[
    (&[11], (true, true, false)),
    (&[12], (true, true, true)),
    (&[12, 10], (false, false, false)),
    (&[12, 0], (true, true, true)),
];

fn is_mapped(case: &Mapping) -> bool {
    let (params, flags) = *case;
    let mut pen = pen();
    apply(&mut pen, params);
    (pen.alt, pen.display, pen.toggle) == flags
}

#[test]
fn maps_by_parameters(rt: HostRuntime) {
    for case in MAPPED {
        check(&rt, is_mapped(case), case.0);
    }
}
