use vt_canvas::Out;

/// A listener for the side effects of a text, for [`Emu::write_with`](crate::Emu::write_with).
pub trait Listener {
    ghost use Rattle.vt_canvas.specs.declared.out.Out.{Out};

    /// The relation of the listener before and after it hears a side effect. An implementation states here
    /// what its callers may use.
    ghost hears: { Self → Out → Self → Type 0 };

    /// Takes one side effect.
    fn hear(&mut self, out: Out)
        ensures { hears self.old out self.new };
}
