ghost use Rattle.std.specs.Prelude.{◌≡◌, ◌≢◌, ◌≤◌, ◌&&◌, None, Some, IfNone, IfSome, IsTrue, cond, false, length, slice_index};
ghost use Rattle.key_machine.specs.ShortOuts.{out_with};
ghost use Rattle.key_syms.specs.Act.{is_action};
ghost use Rattle.key_tables.specs.Tables.{entry_of, exists_in, func_of};
ghost use Rattle.keys_c.specs.KeyboardView.{start_keyboard, with_accents, with_action, with_keycode, with_keys_up, with_string};
ghost use Rattle.keys_c.specs.Scanning.{byte_step, event_step};
ghost use Rattle.scan_codes.specs.Groups.{is_scan};

use key_machine::{KbState, KeyModes, Keyboard, ShortOut};
use key_syms::{Action, Pair};
use key_tables::KeyTables;
use scan_codes::{KeyEvent, Scanner};
use std::marker::Model;

/// A keymap's tables, and a keyboard that types by them into any console.
#[derive(Drop)]
pub(crate) struct KeymapKeyboard {
    tables: KeyTables,
    scanner: Scanner,
    keyboard: Keyboard,
}

impl Model for KeymapKeyboard {
    ghost use Rattle.keys_c.specs.KeyboardView.{KeyboardView, keyboard_of};

    ghost Value = { KeyboardView };

    ghost view = { λ k. keyboard_of k.tables k.scanner k.keyboard };
}

impl KeymapKeyboard {
    /// A keyboard on which no key was typed.
    pub(crate) fn start(tables: KeyTables) -> KeymapKeyboard
        ensures { result ≡ start_keyboard tables }
    {
        KeymapKeyboard {
            tables,
            scanner: Scanner::start(),
            keyboard: Keyboard::start(),
        }
    }

    /// Reads a scan byte, and types the key that it ends into a console.
    pub(crate) fn scan(&mut self, byte: u8, modes: KeyModes, state: &mut KbState) -> ShortOut
        ensures keyboard { self.new ≡ (byte_step modes byte self.old state.old).keyboard }
        ensures state { state.new ≡ (byte_step modes byte self.old state.old).state }
        ensures out { out_with self.new.tables result ≡ (byte_step modes byte self.old state.old).out }
    {
        match self.scanner.push(byte) {
            Some(event) => self.type_key(event, modes, state),
            None => ShortOut::Nothing,
        }
    }

    /// Types one key event into a console: a key goes down, repeats or goes up.
    pub(crate) fn type_key(
        &mut self,
        event: KeyEvent,
        modes: KeyModes,
        state: &mut KbState,
    ) -> ShortOut
        ensures keyboard { self.new ≡ (event_step modes self.old state.old (Some event)).keyboard }
        ensures state { state.new ≡ (event_step modes self.old state.old (Some event)).state }
        ensures out { out_with self.new.tables result ≡ (event_step modes self.old state.old (Some event)).out }
    {
        self.keyboard
            .key_short(0, event, &self.tables, state, modes)
    }

    /// Unplugs keyboard 0, the one that a handle types on: its keys are released and send nothing.
    pub(crate) fn release(&mut self)
        ensures { self.new ≡ with_keys_up self.old }
    {
        self.keyboard.unplug(0);
    }

    /// The string of a function key.
    pub(crate) fn string(&self, number: u8) -> &[u8]
        ensures text { result.now ≡ func_of self.now.tables number }
        ensures short { length result.now ≤ 255 }
    {
        self.tables.func(number)
    }

    pub(crate) fn set_string(&mut self, number: u8, text: &[u8])
        requires { length text.now ≤ 255 }
        ensures { self.new ≡ with_string self.old number text.now }
    {
        self.tables.set_func(number, text);
    }

    /// The action of a key in a table, if there is such a table.
    pub(crate) fn entry(&self, table: u8, keycode: u8) -> Option<Action>
        ensures { result ≡ entry_of self.now.tables table keycode }
    {
        self.tables.entry(table, keycode)
    }

    /// Sets the action of a key in a table, if the table exists and the kind has the value. Returns whether it did.
    pub(crate) fn set_entry(&mut self, table: u8, keycode: u8, kind: u16, value: u16) -> bool
        requires { keycode ≢ 0 }
        ensures done { result ≡ (exists_in self.old.tables table && is_action kind value) }
        ensures entry { self.new ≡ cond result (with_action self.old table keycode kind value) self.old }
    {
        if !self.tables.exists(table) {
            return false;
        }
        match Action::new(kind, value) {
            None => false,
            Some(action) => {
                self.tables.set_entry(table, keycode, action);
                true
            }
        }
    }

    /// The keycode of a scan number, or 0.
    pub(crate) fn keycode(&self, scan: u8) -> Option<u16>
        ensures some { IfSome result (λ code.
            IsTrue (is_scan scan) × (code ≡ slice_index self.now.scanner.codes scan)) }
        ensures none { IfNone result (is_scan scan ≡ false) }
    {
        self.scanner.get(u16::from(scan)).ok()
    }

    /// Sets the keycode of a scan number, or 0 for none. Returns whether there is such a scan number.
    pub(crate) fn set_keycode(&mut self, scan: u8, keycode: u8) -> bool
        ensures done { result ≡ is_scan scan }
        ensures code { self.new ≡ cond result (with_keycode self.old scan keycode) self.old }
    {
        self.scanner
            .set(u16::from(scan), u16::from(keycode))
            .is_ok()
    }

    /// The pairs of compose keys, in order.
    pub(crate) fn pairs(&self) -> &[Pair]
        ensures pairs { result.now ≡ self.now.tables.pairs }
        ensures few { length result.now ≤ 256 }
    {
        self.tables.pairs()
    }

    pub(crate) fn set_pairs(&mut self, pairs: &[Pair])
        requires { length pairs.now ≤ 256 }
        ensures { self.new ≡ with_accents self.old pairs.now }
    {
        self.tables.set_pairs(pairs);
    }
}
