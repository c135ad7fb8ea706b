//! Scan bytes, and the keys that they complete.
ghost use Rattle.std.specs.Prelude.{◌≡◌, []};
ghost use Rattle.vt_world.specs.Deeds.{apply_deeds};
ghost use Rattle.vt_world.specs.Terminals.{key_modes_of, terminal_at};
ghost use Rattle.vt_world.specs.Typing.{key_on, key_out_deeds, read_deeds, scan_deeds, typed_deeds};

use crate::World;
use crate::wanted::Wanted;
use key_machine::{KeyModes, KeyOut, START_MODES, mode};
use scan_codes::KeyEvent;
use vt_base::{ConsoleNo, KeyboardNo};

impl World {
    /// Takes a scan byte of keyboard `k`, with console `n` in front.
    pub(crate) fn scan_on(&mut self, k: KeyboardNo, n: ConsoleNo, b: u8)
        requires { self.old.trace.marks ≡ [] }
        ensures { self.new ≡ apply_deeds self.old (scan_deeds self.old k n b) }
    {
        if self.inputs.keys(n).mode == mode::RAW {
            self.put(n, &[b]);
            return self.read(k, n, b);
        }
        self.read(k, n, b);
    }

    // Reads the byte, and types the key that it completes.
    fn read(&mut self, k: KeyboardNo, n: ConsoleNo, b: u8)
        requires { self.old.trace.marks ≡ [] }
        ensures { self.new ≡ apply_deeds self.old (read_deeds self.old k n b) }
    {
        if let Some(e) = self.board.read(k, b) {
            self.type_key(k, n, e);
        }
    }

    // Presses or releases a key of keyboard `k`, with console `n` in front.
    fn type_key(&mut self, k: KeyboardNo, n: ConsoleNo, e: KeyEvent)
        requires { self.old.trace.marks ≡ [] }
        ensures { self.new ≡ apply_deeds self.old (typed_deeds self.old n (key_on self.old k n e)) }
    {
        let mut keys = self.inputs.keys(n);
        let modes = self.key_modes(n);
        let out = self
            .board
            .keyboard
            .key(k.get(), e, &self.board.tables, &mut keys, modes);
        self.inputs.set_keys(n, keys);
        self.take_key(n, &out);
    }

    // The modes of a console's screen that keys depend on.
    fn key_modes(&self, n: ConsoleNo) -> KeyModes
        ensures { result ≡ key_modes_of (terminal_at self.now.terminals n) }
    {
        let Some(terminal) = self.terminals.at(n) else {
            return START_MODES;
        };
        let state = terminal.emu().state();
        KeyModes {
            cursor: state.cursor,
            keypad: state.keypad,
            repeat: state.repeat,
            newline: state.newline,
        }
    }

    // Carries out the result of a key; `n` is the console that was in front.
    fn take_key(&mut self, n: ConsoleNo, out: &KeyOut)
        requires { self.old.trace.marks ≡ [] }
        ensures { self.new ≡ apply_deeds self.old (key_out_deeds self.old n out.now) }
    {
        match out {
            KeyOut::Bytes(bytes) => self.put(n, bytes.as_slice()),
            KeyOut::Switch(m) => self.request(Wanted::Number(u16::from(*m))),
            KeyOut::Last => self.request(Wanted::Last),
            KeyOut::Next => self.request(Wanted::Above),
            KeyOut::Prev => self.request(Wanted::Below),
            KeyOut::Spawn => {
                if let Some((p, signal)) = self.procs.accepter() {
                    self.send(p, signal);
                }
            }
            KeyOut::Attention => self.secure_attention(n),
            KeyOut::Nothing => {}
        }
    }
}
