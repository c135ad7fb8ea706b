ghost use Rattle.std.specs.Prelude.{◌≡◌, None};
ghost use Rattle.key_machine.specs.Keys.{start_state};

use crate::{meta, mode};
use std::marker::Model;

/// A console's key state. Its mode is at most 4, and its meta 3 or 4.
#[derive(Clone, Copy, Debug, PartialEq, Eq)]
pub struct KbState {
    /// The keyboard mode: one of [`crate::mode`].
    pub mode: u8,
    /// The use of Meta: one of [`crate::meta`].
    pub meta: u8,
    /// The flags of [`crate::flag`] that are on.
    pub flags: u8,
    /// The flags after a reset.
    pub defaults: u8,
    /// The lights, if they don't show the flags.
    pub lights: Option<u8>,
    /// The sum of the weights of the locked modifiers.
    pub locks: u8,
    /// The sum of the weights of the sticky modifiers, which count for the next key.
    pub sticky: u8,
}

impl Model for KbState {
    ghost use Rattle.std.specs.Prelude.{◌≤◌};
    ghost use Rattle.key_machine.specs.Keys.{State, state_of};

    ghost Value = { State };

    ghost view = { λ s. state_of s.mode s.meta s.flags s.defaults s.lights s.locks s.sticky };

    ghost invariant = { λ s. (s.mode ≤ 4) × (3 ≤ s.meta) × (s.meta ≤ 4) };

    ghost inverse = { λ s. record {
      mode = s.mode;
      meta = s.meta;
      flags = s.flags;
      defaults = s.defaults;
      lights = s.lights;
      locks = s.locks;
      sticky = s.sticky;
    } };
}

impl KbState {
    /// The start: K_UNICODE, K_ESCPREFIX, and nothing else is set. This project's own.
    pub fn start() -> KbState
        ensures { result ≡ start_state }
    {
        KbState {
            mode: mode::UNICODE,
            meta: meta::ESCPREFIX,
            flags: 0,
            defaults: 0,
            lights: None,
            locks: 0,
            sticky: 0,
        }
    }
}
