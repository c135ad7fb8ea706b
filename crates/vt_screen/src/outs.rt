ghost use Rattle.std.specs.Prelude.{◌≡◌, ◌<◌, ◌≤◌, ◌+◌, [], ◌∷◌, ◌++◌, length};
ghost use Rattle.vt_screen.specs.Run.{outs_of_option};

use arrayvec::ArrayVec;
use std::marker::Model;
use vt_canvas::{Out, SideEffect};

/// The side effects of at most 64 bytes, in order. Each byte has at most one.
#[derive(Drop)]
pub struct Outs {
    items: ArrayVec<Out, 64>,
}

impl Model for Outs {
    ghost use Rattle.std.specs.Prelude.{List};
    ghost use Rattle.vt_canvas.specs.declared.out.Out.{Out};

    ghost Value = { List Out };

    ghost view = { λ o. o.items.items };
}

impl Outs {
    /// An empty list.
    pub fn new() -> Outs
        ensures { result ≡ [] }
    {
        Outs {
            items: ArrayVec::new(),
        }
    }

    /// Removes all side effects.
    pub fn clear(&mut self)
        ensures { self.new ≡ [] }
    {
        self.items.clear();
    }

    /// Adds a side effect at the end.
    pub fn push(&mut self, out: Out)
        requires { length self.old < 64 }
        ensures { self.new ≡ self.old ++ out ∷ [] }
    {
        self.items.push(out);
    }

    /// Adds a side effect at the end, if there is one.
    pub(crate) fn say(&mut self, said: SideEffect)
        requires { length self.old < 64 }
        ensures said { self.new ≡ self.old ++ outs_of_option said }
        ensures few { length self.new ≤ length self.old + 1 }
    {
        if let Some(out) = said.into_option() {
            self.items.push(out);
        }
    }

    /// The side effects in order.
    pub fn as_slice(&self) -> &[Out]
        ensures items { result.now ≡ self.now }
        ensures bound { length self.now ≤ 64 }
    {
        self.items.as_slice()
    }
}

impl Default for Outs {
    ghost is_default = { λ x. x ≡ [] };

    fn default() -> Outs {
        Outs::new()
    }
}
