ghost use Rattle.std.specs.Prelude.{◌≡◌, ℕ};

/// A number that is the code of a character: a byte, or a code point.
pub(crate) trait Code: Copy {
    ghost code_of: { Self → ℕ };

    fn code(self) -> u32
        ensures { result ≡ code_of self };
}

impl Code for u8 {
    ghost code_of = { λ byte. byte };

    fn code(self) -> u32 {
        u32::from(self)
    }
}

impl Code for u32 {
    ghost code_of = { λ code. code };

    fn code(self) -> u32 {
        self
    }
}
