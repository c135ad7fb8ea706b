ghost use Rattle.std.specs.Prelude.{◌≡◌, IfNone, IfSome, IsTrue, false};
ghost use Rattle.keys_c.specs.KeyState.{is_key_state, lights_of, state_in, state_out};

use key_machine::{KbState, meta, mode};

/// The greatest sum of flags, and of lights.
const ALL_FLAGS: u8 = 7;

/// `VT_LIGHTS_FOLLOW`: the lights show the flags.
const FOLLOW: u8 = 255;

/// A console's key state as C holds it.
#[repr(C)]
#[derive(Clone, Copy, Debug, PartialEq, Eq)]
pub(crate) struct VtKeyState {
    /// The keyboard mode: 0 K_RAW to 4 K_OFF.
    pub mode: u8,
    /// What Meta does: 3 K_METABIT, 4 K_ESCPREFIX.
    pub meta: u8,
    /// The flags that are on: Scroll Lock 1, Num Lock 2, Caps Lock 4.
    pub flags: u8,
    /// The flags that a reset gives.
    pub defaults: u8,
    /// What the lights show, or 255 if they show the flags.
    pub lights: u8,
    /// The locked modifiers, by their weights.
    pub locks: u8,
    /// The sticky modifiers, by their weights.
    pub sticky: u8,
    /// 0.
    pub spare: [u8; 9],
}

impl VtKeyState {
    /// The state, if each number is in its range and the spare bytes are 0.
    pub(crate) fn state(&self) -> Option<KbState>
        ensures some { IfSome result (λ s. IsTrue (is_key_state self.now) × (s ≡ state_in self.now)) }
        ensures none { IfNone result (is_key_state self.now ≡ false) }
    {
        if self.mode > mode::OFF || self.meta < meta::METABIT || self.meta > meta::ESCPREFIX {
            return None;
        }
        if self.flags > ALL_FLAGS || self.defaults > ALL_FLAGS {
            return None;
        }
        if self.lights > ALL_FLAGS && self.lights != FOLLOW {
            return None;
        }
        if self.spare != [0; 9] {
            return None;
        }
        Some(KbState {
            mode: self.mode,
            meta: self.meta,
            flags: self.flags,
            defaults: self.defaults,
            lights: lights_of(self.lights),
            locks: self.locks,
            sticky: self.sticky,
        })
    }

    /// Takes another state.
    pub(crate) fn set(&mut self, s: KbState)
        ensures { self.new ≡ state_out s self.old }
    {
        self.mode = s.mode;
        self.meta = s.meta;
        self.flags = s.flags;
        self.defaults = s.defaults;
        self.lights = s.lights.unwrap_or(FOLLOW);
        self.locks = s.locks;
        self.sticky = s.sticky;
    }
}

// The lights that were set, or `None` if they show the flags.
fn lights_of(lights: u8) -> Option<u8>
    ensures { result ≡ lights_of lights }
{
    if lights == FOLLOW { None } else { Some(lights) }
}
