ghost use Rattle.std.specs.Prelude.{◌≡◌, ◌≤◌, ℕ, List, [], ◌∷◌, ◌++◌};
ghost use Rattle.key_tables.specs.Tables.{Tables};
ghost use Rattle.vt_tool.specs.Commands.Typed.{HasTyped};
ghost use Rattle.vt_tool.specs.Commands.Typing.{said_after};

use key_machine::{KbState, KeyOut, Keyboard, START_MODES};
use key_tables::KeyTables;
use scan_codes::Scanner;
use std::marker::Model;

/// A keyboard whose scan bytes are typed on a start screen.
#[derive(Drop)]
pub(crate) struct Typist {
    scanner: Scanner,
    keyboard: Keyboard,
    state: KbState,
}

impl Model for Typist {
    ghost use Rattle.vt_tool.specs.Commands.Typed.{TypistView};

    ghost Value = { TypistView };

    ghost view = { λ t. record { scanner = t.scanner; keys = t.keyboard; state = t.state } };
}

impl Typist {
    /// Nothing typed yet, in this keyboard mode.
    pub(crate) fn start(mode: u8) -> Typist
        requires { mode ≤ 4 }
        ensures { (tables : Tables) → HasTyped tables mode [] result }
    {
        let mut state = KbState::start();
        state.mode = mode;
        Typist {
            scanner: Scanner::start(),
            keyboard: Keyboard::start(),
            state,
        }
    }

    /// Types a scan byte, and returns the output of the key that it ends.
    pub(crate) fn take(&mut self, tables: &KeyTables, b: u8) -> KeyOut
        ensures typed { (mode : ℕ) (before : List ℕ) → HasTyped tables.now mode before self.old
            → HasTyped tables.now mode (before ++ b ∷ []) self.new }
        ensures said { (mode : ℕ) (before : List ℕ) → HasTyped tables.now mode before self.old
            → result ≡ said_after tables.now mode before b }
    {
        match self.scanner.push(b) {
            Some(e) => self
                .keyboard
                .key(0, e, tables, &mut self.state, START_MODES),
            None => KeyOut::Nothing,
        }
    }
}
