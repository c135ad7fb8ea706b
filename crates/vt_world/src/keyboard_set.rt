ghost use Rattle.std.specs.Prelude.{◌≡◌, ◌≤◌, IsTrue, map, replicate, slice_set};
ghost use Rattle.key_machine.specs.Keys.{start_keys};
ghost use Rattle.scan_codes.specs.Groups.{is_scan};
ghost use Rattle.scan_codes.specs.Scan.{event_after, start_scan, with_code};
ghost use Rattle.vt_world.specs.Deeds.{keys_without};
ghost use Rattle.vt_world.specs.Typing.{read_by, scanner_of};
ghost use Rattle.vt_base.specs.Keyboards.{keyboard_of};

mod same;

use key_machine::Keyboard;
use key_tables::KeyTables;
use scan_codes::{KeyEvent, Scanner};
use vt_base::{CallerNo, KEYBOARDS, KeyboardNo};

/// The keyboards: a scanner for each, the keys that are down, and the key tables.
#[derive(Drop)]
pub(crate) struct KeyboardSet {
    // By the keyboards' numbers. All have the same keycodes.
    pub(crate) scanners: [Scanner; KEYBOARDS],
    pub(crate) keyboard: Keyboard,
    pub(crate) tables: KeyTables,
}

impl KeyboardSet {
    /// The start: no byte is read, and no key is down.
    pub(crate) fn start(tables: KeyTables) -> KeyboardSet
        ensures scanners { result.scanners ≡ replicate 4 start_scan }
        ensures keyboard { result.keyboard ≡ start_keys }
        ensures tables { result.tables ≡ tables }
    {
        KeyboardSet {
            scanners: [
                Scanner::start(),
                Scanner::start(),
                Scanner::start(),
                Scanner::start(),
            ],
            keyboard: Keyboard::start(),
            tables,
        }
    }

    /// Reads a byte of keyboard `k`. Returns the key event of the group that the byte completes.
    pub(crate) fn read(&mut self, k: KeyboardNo, b: u8) -> Option<KeyEvent>
        ensures event { let scanner = scanner_of self.old.scanners k in
            result ≡ event_after scanner.codes scanner.bytes b }
        ensures rest { self.new ≡ record self.old {
          scanners = slice_set self.old.scanners k (read_by (scanner_of self.old.scanners k) b);
        } }
    {
        self.scanners[usize::from(k.get())].push(b)
    }

    /// Gives a scan number another keycode on all keyboards; 0 is none.
    pub(crate) fn set_code(&mut self, scan: u16, code: u16)
        requires scan { IsTrue (is_scan scan) }
        requires code { code ≤ 255 }
        ensures { self.new ≡ record self.old {
          scanners = map (λ s. with_code s scan code) self.old.scanners;
        } }
    {
        set(&mut self.scanners[0], scan, code);
        set(&mut self.scanners[1], scan, code);
        set(&mut self.scanners[2], scan, code);
        set(&mut self.scanners[3], scan, code);
    }

    /// Releases the keys of a caller that ended, if it is a keyboard. No bytes are sent.
    pub(crate) fn unplug(&mut self, p: CallerNo)
        ensures { self.new ≡ record self.old {
          keyboard = keys_without (keyboard_of p) self.old.keyboard;
        } }
    {
        if let Some(k) = p.keyboard_no() {
            self.keyboard.unplug(k);
        }
    }
}

// Gives a scan number another keycode in one scanner.
fn set(scanner: &mut Scanner, scan: u16, code: u16)
    requires scan { IsTrue (is_scan scan) }
    requires code { code ≤ 255 }
    ensures { scanner.new ≡ with_code scanner.old scan code }
{
    let taken = scanner.set(scan, code);
    prove!(taken.is_ok());
    let _ = taken;
}
