ghost use Rattle.std.specs.Prelude.{◌≡◌, None, Some, is_none, option_copied};

use crate::Out;
use std::marker::Model;

/// The side effect of a unit or of a text, if it has one. Contracts see an `Option`; clearing it writes one byte.
#[derive(Drop)]
pub struct SideEffect {
    holds: bool,
    out: Out,
}

impl Model for SideEffect {
    ghost use Rattle.std.specs.Prelude.{None, Option, Some, if◌then◌else◌};
    ghost use Rattle.vt_canvas.specs.declared.out.Out.{Out};

    ghost Value = { Option Out };

    ghost view = { λ s. if s.holds then Some s.out else None };
}

impl SideEffect {
    /// No side effect.
    pub fn new() -> SideEffect
        ensures { result ≡ None }
    {
        SideEffect {
            holds: false,
            out: Out::Bell,
        }
    }

    /// The side effect, if there is one.
    pub fn get(&self) -> Option<&Out>
        ensures { option_copied result ≡ self.now }
    {
        if self.holds { Some(&self.out) } else { None }
    }

    /// Becomes no side effect.
    #[inline(always)]
    pub fn clear(&mut self)
        ensures { self.new ≡ None }
    {
        self.holds = false;
    }

    pub(crate) fn set(&mut self, out: Out)
        ensures { self.new ≡ Some out }
    {
        self.holds = true;
        self.out = out;
    }

    /// Whether there is none.
    pub fn is_none(&self) -> bool
        ensures { result ≡ is_none self.now }
    {
        !self.holds
    }

    /// The side effect itself.
    pub fn into_option(self) -> Option<Out>
        ensures { result ≡ self }
    {
        if self.holds { Some(self.out) } else { None }
    }
}
