ghost use Rattle.std.specs.Prelude.{◌≡◌, ◌≤◌, ◌↔◌, ◌⊎◌, [], ◌∷◌, ◌++◌, None, IsTrue, IsOk, OnOk, OnErr, IfOk, slice_index};
ghost use Rattle.scan_codes.specs.Groups.{Begins, is_down, is_group, is_scan, key, named_by, pause};
ghost use Rattle.scan_codes.specs.ScanPrefix.{IsTranslation, bytes_of};
ghost use Rattle.scan_codes.specs.Scan.{bytes_after, event_after, start_scan, with_code};

mod same;

use crate::KeyEvent;
use crate::start::start_code;
use std::marker::Model;
use vt_base::Inval;

/// The keycode of Pause, whose group no setting changes. This project's own.
const PAUSE: u8 = 119;

// The bytes since the last whole group, which begin a group.
#[derive(Debug, Clone, Copy, PartialEq, Eq)]
enum ScanPrefix {
    Nothing,
    E0,
    E1,
    E1And(u8),
}

/// The scan bytes of a keyboard, read one by one, and the keycodes of their scan numbers.
#[derive(Debug, Drop)]
pub struct Scanner {
    kept: ScanPrefix,
    codes: [u8; 256],
}

impl Model for Scanner {
    ghost use Rattle.scan_codes.specs.Scan.{Scan, scan_of};
    ghost use Rattle.scan_codes.specs.ScanPrefix.{IsTranslation, bytes_of};

    ghost Value = { Scan };

    ghost view = { λ s. scan_of (bytes_of s.kept) s.codes };

    ghost invariant = { λ s. IsTranslation s.codes };
}

impl Scanner {
    /// A scanner that has read nothing, with the keycodes of the start.
    pub fn start() -> Scanner
        ensures { result ≡ start_scan }
    {
        let mut codes = [0; 256];
        for scan in 0..256 {
            codes[scan] = start_code(scan as u8);
        }
        Scanner {
            kept: ScanPrefix::Nothing,
            codes,
        }
    }

    /// Reads a byte. If it ends a group, the event is the group's.
    pub fn push(&mut self, b: u8) -> Option<KeyEvent>
        ensures event { result ≡ event_after self.old.codes self.old.bytes b }
        ensures none { let all = self.old.bytes ++ b ∷ [] in
            (result ≡ None)
            ↔ (Begins all ⊎ (IsTrue (is_group all) × (named_by self.old.codes all ≡ None))) }
        ensures rest { self.new ≡ record self.old { bytes = bytes_after self.old.bytes b } }
    {
        let (event, kept) = step(self.kept, &self.codes, b);
        self.kept = kept;
        event
    }

    /// Sets the keycode of a scan number; 0 is none.
    pub fn set(&mut self, scan: u16, code: u16) -> Result<(), Inval>
        ensures taken { IsOk result ↔ (IsTrue (is_scan scan) × (code ≤ 255)) }
        ensures ok { OnOk result (self.new ≡ with_code self.old scan code) }
        ensures err { OnErr result (self.new ≡ self.old) }
    {
        if !is_scan(scan) || code > 255 {
            return Err(Inval);
        }
        self.codes[usize::from(scan)] = code as u8;
        Ok(())
    }

    /// The keycode of a scan number; 0 is none.
    pub fn get(&self, scan: u16) -> Result<u16, Inval>
        ensures known { IsOk result ↔ IsTrue (is_scan scan) }
        ensures code { IfOk result (λ code. code ≡ slice_index self.now.codes scan) }
    {
        if !is_scan(scan) {
            return Err(Inval);
        }
        Ok(u16::from(self.codes[usize::from(scan)]))
    }
}

fn is_scan(scan: u16) -> bool
    ensures { result ≡ is_scan scan }
{
    (1 <= scan && scan <= 127) || (129 <= scan && scan <= 255)
}

// The event of b after the kept bytes, and the bytes that are then kept.
fn step(kept: ScanPrefix, codes: &[u8; 256], b: u8) -> (Option<KeyEvent>, ScanPrefix)
    requires { IsTranslation codes.now }
    ensures event { result.0 ≡ event_after codes.now (bytes_of kept) b }
    ensures rest { bytes_of result.1 ≡ bytes_after (bytes_of kept) b }
{
    match kept {
        ScanPrefix::Nothing => match b {
            0xE0 => (None, ScanPrefix::E0),
            0xE1 => (None, ScanPrefix::E1),
            0xFF => (None, ScanPrefix::Nothing),
            _ => (key(codes, b % 0x80, b < 0x80), ScanPrefix::Nothing),
        },
        ScanPrefix::E0 => (key(codes, 0x80 + b % 0x80, b < 0x80), ScanPrefix::Nothing),
        ScanPrefix::E1 => (None, ScanPrefix::E1And(b)),
        ScanPrefix::E1And(before) => (pause(before, b), ScanPrefix::Nothing),
    }
}

// The key of a scan number.
fn key(codes: &[u8; 256], scan: u8, down: bool) -> Option<KeyEvent>
    requires { IsTranslation codes.now }
    ensures { result ≡ key codes.now scan down }
{
    let code = codes[usize::from(scan)];
    if code == 0 {
        None
    } else {
        Some(KeyEvent { code, down })
    }
}

// The key that E1 and two bytes name.
fn pause(b: u8, c: u8) -> Option<KeyEvent>
    ensures { result ≡ pause b c }
{
    match (b, c) {
        (0x1D, 0x45) => Some(KeyEvent {
            code: PAUSE,
            down: true,
        }),
        (0x9D, 0xC5) => Some(KeyEvent {
            code: PAUSE,
            down: false,
        }),
        _ => None,
    }
}
