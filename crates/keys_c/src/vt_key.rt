ghost use Rattle.std.specs.Prelude.{◌≡◌, ◌≤◌, [], length};
ghost use Rattle.key_machine.specs.Bytes.{out_of};
ghost use Rattle.key_machine.specs.ShortOuts.{out_with};
ghost use Rattle.keys_c.specs.KeyOuts.{key_with, vt_key_of};
ghost use Rattle.keys_c.specs.Scanning.{out_in_mode};

use crate::keymap_keyboard::KeymapKeyboard;
use key_machine::{ShortOut, mode};

/// The result of a scan byte or a key.
#[repr(C)]
#[derive(Drop)]
pub(crate) struct VtKey {
    /// 0 nothing, 1 bytes for the console's input, 2 a switch to the console of the number, 3 to the
    /// previous one, 4 to the next one, 5 to the one before by number, 6 KeyboardSignal, 7 SAK.
    pub kind: u8,
    /// 0.
    pub spare: u8,
    /// How many bytes there are.
    pub length: u16,
    /// The number of the console.
    pub number: u32,
    /// The bytes. The places after them stay unchanged.
    pub bytes: [u8; 512],
}

impl VtKey {
    /// Writes the result of a scan byte. In K_RAW that is the byte itself, unless the attention key acts.
    #[tactic(auto, using(crate::proofs::RawOuts::raw_outs))]
    pub(crate) fn hand_over(&mut self, mode: u8, byte: u8, out: &ShortOut, from: &KeymapKeyboard)
        ensures { self.new ≡ vt_key_of (out_in_mode mode byte (out_with from.now.tables out.now)) self.old }
    {
        if mode != mode::RAW || matches!(out, ShortOut::Attention) {
            self.put_out(out, from);
        } else {
            self.put(1, 0, &[byte]);
        }
    }

    /// Writes the result of a key event. The string of a function key is that of `from`.
    pub(crate) fn put_out(&mut self, out: &ShortOut, from: &KeymapKeyboard)
        ensures { self.new ≡ vt_key_of (out_with from.now.tables out.now) self.old }
    {
        match out {
            ShortOut::Nothing => self.put(0, 0, &[]),
            ShortOut::Bytes(bytes) => self.put(1, 0, bytes.as_slice()),
            ShortOut::Function(number) => self.put_string(from.string(*number)),
            ShortOut::Switch(n) => self.put(2, *n, &[]),
            ShortOut::Last => self.put(3, 0, &[]),
            ShortOut::Next => self.put(4, 0, &[]),
            ShortOut::Prev => self.put(5, 0, &[]),
            ShortOut::Spawn => self.put(6, 0, &[]),
            ShortOut::Attention => self.put(7, 0, &[]),
        }
    }

    fn put_string(&mut self, text: &[u8])
        requires { length text.now ≤ 255 }
        ensures { self.new ≡ vt_key_of (out_of text.now) self.old }
    {
        if text.is_empty() {
            self.put(0, 0, &[]);
        } else {
            self.put(1, 0, text);
        }
    }

    fn put(&mut self, kind: u8, number: u8, bytes: &[u8])
        requires { length bytes.now ≤ 512 }
        ensures { self.new ≡ key_with kind number bytes.now self.old }
    {
        self.kind = kind;
        self.spare = 0;
        self.length = bytes.len() as u16;
        self.number = u32::from(number);
        self.bytes[..bytes.len()].copy_from_slice(bytes);
    }
}
