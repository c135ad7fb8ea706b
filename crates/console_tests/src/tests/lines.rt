//! The items and the echo of the last of some bytes, and the bytes that are kept then.
use cooked::{Cooked, EchoBytes, Given, Termios};
use std::alloc::Global;
use std::process::Abort;
use std::test::Fail;

#[derive(Clone, Copy)]
enum Gives {
    Nothing,
    Line,
    Byte(u8),
    Signal(u16),
}

// Bytes that are typed, and the results of the last of them: its item, the line, the rest, and its echo.
type Case = (
    &'static [u8],
    Gives,
    &'static [u8],
    &'static [u8],
    &'static [u8],
);

fn is_given(given: Given, wanted: Gives) -> bool {
    match given {
        Given::Nothing => matches!(wanted, Gives::Nothing),
        Given::Line => matches!(wanted, Gives::Line),
        Given::Byte(b) => matches!(wanted, Gives::Byte(c) if c == b),
        Given::Sig(s) => is_signal(s.get(), wanted),
    }
}

fn is_signal(number: u16, wanted: Gives) -> bool {
    matches!(wanted, Gives::Signal(n) if n == number)
}

// The first of the four that differs from the case; empty if none does.
fn wrong(cooked: &Cooked, given: Given, echo: &[u8], case: &Case) -> &'static str {
    let (_, gives, line, rest, shown) = *case;
    if !is_given(given, gives) {
        "what it gives"
    } else if cooked.line() != line {
        "the line"
    } else if cooked.rest() != rest {
        "the rest"
    } else if echo != shown {
        "the echo"
    } else {
        ""
    }
}

// Types the bytes of the case, and returns the result that is wrong then.
fn wrong_after(cooked: &mut Cooked, case: &Case) -> &'static str {
    let mut echo = EchoBytes::new();
    let mut given = Given::Nothing;
    let (typed, ..) = *case;
    for b in typed {
        echo.clear();
        given = cooked.push(*b, &mut echo);
    }
    wrong(cooked, given, echo.as_slice(), case)
}

fn started(alloc: Global, t: Termios) -> Result<Cooked, Fail> {
    if !t.valid() {
        return Err("no settings".into());
    }
    Ok(Cooked::start(alloc, t)?)
}

fn check(by: &impl Abort, alloc: Global, t: Termios, case: &Case) -> Result<(), Fail> {
    let mut cooked = started(alloc, t)?;
    let found = wrong_after(&mut cooked, case);
    let (typed, ..) = *case;
    assert!(by; found.is_empty(), "{found} of {typed:?}");
    Ok(())
}

const WIPE_ONE: &[u8] = b"\x08 \x08";

const WIPE_TWO: &[u8] = b"\x08 \x08\x08 \x08";

// The usual settings. U+4E2D takes two columns and U+0301 none (Unicode Standard Annex 11), and E4 B8 is
// the beginning of a sequence of three.
const USUAL: &[Case] = &[
    (b"ab\x7Fc\n", Gives::Line, b"ac\n", b"", b"\r\n"),
    (b"ab\x7F", Gives::Nothing, b"", b"a", WIPE_ONE),
    (b"\x7F", Gives::Nothing, b"", b"", b""),
    (b"x\x03", Gives::Signal(2), b"", b"", b"^C"),
    (b"x\x1C", Gives::Signal(3), b"", b"", b"^\\"),
    (b"x\x03\x04", Gives::Line, b"", b"", b""),
    (b"ab\x04", Gives::Line, b"ab", b"", b""),
    (b"ab\x15", Gives::Nothing, b"", b"", b"\r\n"),
    (b"ab\x15c\r", Gives::Line, b"c\n", b"", b"\r\n"),
    (b"a\nb\x7F\x7F", Gives::Nothing, b"", b"", b""),
    (b"\xE4\xB8\xAD\x7F", Gives::Nothing, b"", b"", WIPE_TWO),
    (b"\xE4\xB8\x7F", Gives::Nothing, b"", b"", WIPE_ONE),
    (b"a\xCC\x81\x7F", Gives::Nothing, b"", b"a", b""),
    (b"a\t\x7F", Gives::Nothing, b"", b"a", WIPE_TWO),
    (b"a\t", Gives::Nothing, b"", b"a\t", b"^I"),
    (
        b"\xE4a\x7F\xB8\xAD\x7F",
        Gives::Nothing,
        b"",
        b"\xE4\xB8",
        WIPE_ONE,
    ),
    (
        b"\xE4a\x7F\xB8\xAD\n",
        Gives::Line,
        b"\xE4\xB8\xAD\n",
        b"",
        b"\r\n",
    ),
];

// Without ICANON.
const RAW: &[Case] = &[
    (b"a", Gives::Byte(b'a'), b"", b"", b"a"),
    (b"\r", Gives::Byte(b'\n'), b"", b"", b"\r\n"),
    (b"\x7F", Gives::Byte(0x7F), b"", b"", b"^?"),
    (b"\x15", Gives::Byte(0x15), b"", b"", b"^U"),
    (b"\x03", Gives::Signal(2), b"", b"", b"^C"),
];

// Without ISIG, ICRNL and ONLCR.
const BARE: &[Case] = &[
    (b"\x03", Gives::Nothing, b"", b"\x03", b"^C"),
    (b"a\r", Gives::Nothing, b"", b"a\r", b"^M"),
    (b"a\n", Gives::Line, b"a\n", b"", b"\n"),
];

// Without ECHO.
const SILENT: &[Case] = &[
    (b"a", Gives::Nothing, b"", b"a", b""),
    (b"a\x7F", Gives::Nothing, b"", b"", b""),
    (b"a\x03", Gives::Signal(2), b"", b"", b""),
];

// The settings of each list of cases.
const SETTINGS: &[(&str, &[Case])] = &[
    ("usual", USUAL),
    ("raw", RAW),
    ("bare", BARE),
    ("silent", SILENT),
];

fn settings(word: &str) -> Termios {
    let usual = Termios::usual();
    match word {
        "raw" => Termios {
            icanon: false,
            ..usual
        },
        "bare" => Termios {
            isig: false,
            icrnl: false,
            onlcr: false,
            ..usual
        },
        "silent" => Termios {
            echo: false,
            ..usual
        },
        _ => usual,
    }
}

fn check_all(by: &impl Abort, alloc: Global, t: Termios, cases: &[Case]) -> Result<(), Fail> {
    for case in cases {
        check(by, alloc, t, case)?;
    }
    Ok(())
}

#[test]
fn bytes_become_lines(rt: HostRuntime) -> Result<(), Fail> {
    for &(word, cases) in SETTINGS {
        check_all(&rt, rt.alloc(), settings(word), cases)?;
    }
    Ok(())
}

// Erase bytes, and whether the usual settings with each are valid. termios(3) names no such rule; it is this project's
// own.
const ERASES: &[(u8, bool)] = &[
    (0x7F, true),
    (0x08, true),
    (0x00, true),
    (0x15, false),
    (0x03, false),
    (0x0A, false),
    (0x0D, false),
    (0x20, false),
    (0x80, false),
];

// Whether the usual settings with another erase byte are valid.
fn is_valid(erase: u8) -> bool {
    let t = Termios {
        erase,
        ..Termios::usual()
    };
    t.valid()
}

#[test]
fn settings_are_valid(rt: HostRuntime) {
    for &(erase, valid) in ERASES {
        assert!(rt; is_valid(erase) == valid, "{erase}");
    }
}

// Types the byte so many times, and returns whether the last has this echo.
fn echoes(cooked: &mut Cooked, b: u8, times: u16, shown: &[u8]) -> bool {
    let mut echo = EchoBytes::new();
    for _ in 0..times {
        echo.clear();
        cooked.push(b, &mut echo);
    }
    echo.as_slice() == shown
}

fn is_full(cooked: &Cooked) -> bool {
    cooked.rest().len() == 4_095
}

// Whether the end gives so many bytes, and keeps none.
fn gives_all(cooked: &mut Cooked, len: usize) -> bool {
    let mut echo = EchoBytes::new();
    let given = cooked.push(b'\n', &mut echo);
    given == Given::Line && cooked.line().len() == len && cooked.rest().is_empty()
}

// A line is full with 4,095 bytes: an erase has no effect, and the end gives them and 0A.
#[test]
fn a_full_line_takes_its_end_alone(rt: HostRuntime) -> Result<(), Fail> {
    let mut cooked = started(rt.alloc(), Termios::usual())?;
    assert!(rt;
        echoes(&mut cooked, b'a', 4_095, b"a"),
        "the last that fits"
    );
    for b in *b"b\x7F" {
        assert!(rt;
            echoes(&mut cooked, b, 1, b"\x07") && is_full(&cooked),
            "past a full line"
        );
    }
    assert!(rt; gives_all(&mut cooked, 4_096), "the end");
    Ok(())
}
