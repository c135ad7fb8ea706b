//! The side effects that a listener hears of a text of any length.
use super::checks::check_made;
use super::sayings::{Said, is_said};
use super::start;
use std::alloc::Global;
use vt_base::{NoMemory, Size};
use vt_screen::{Listener, Out};

const SIZE: Size = Size { rows: 3, cols: 10 };

// A text, and its side effects, in order.
type Case = (&'static [u8], &'static [Said]);

const CASES: &[Case] = &[
    (b"ab", &[]),
    (b"\x07\x1B[5", &[Said::Bell]),
    (
        b"\x07 the text between these is longer than all that one feed takes, that is, 64 bytes \x1B[5n\
\x1B[12;3]\x1B[15]\x1B[3q",
        &[
            Said::Bell,
            Said::Report(b"\x1B[0n"),
            Said::To(3),
            Said::Last,
            Said::Lights(4),
        ],
    ),
];

// The side effects that are wanted, how many of them were heard, and whether all were right so far.
#[derive(Drop)]
struct Expecting {
    wanted: &'static [Said],
    heard: usize,
    right: bool,
}

impl Listener for Expecting {
    ghost hears = { λ old out new. Unit {0} };

    fn hear(&mut self, out: Out) {
        let wanted = match self.wanted.get(self.heard) {
            Some(said) => *said,
            None => Said::Nothing,
        };
        self.right = self.right && is_said(Some(&out), wanted);
        self.heard = self.heard.saturating_add(1);
    }
}

fn is_heard(alloc: Global, case: &Case) -> Result<bool, NoMemory> {
    let (text, wanted) = *case;
    let mut emu = start(alloc, SIZE)?;
    let mut listener = Expecting {
        wanted,
        heard: 0,
        right: true,
    };
    emu.write_with(text, &mut listener);
    Ok(listener.right && listener.heard == wanted.len())
}

#[test]
fn listeners_hear(rt: HostRuntime) {
    for case in CASES {
        check_made(&rt, is_heard(rt.alloc(), case), case.0);
    }
}
