/// `struct vt_modes`: the modes of a screen that keys depend on (console_codes(4)), each 1 or 0.
#[repr(C)]
#[derive(Clone, Copy, PartialEq, Eq)]
pub struct VtModes {
    /// DECCKM: cursor keys send their application form.
    pub cursor_keys: u8,
    /// DECPAM: the keypad sends its application form.
    pub keypad: u8,
    /// DECARM: a key that is held repeats.
    pub repeat: u8,
    /// LNM: a line feed goes to the first column.
    pub newline_mode: u8,
    /// Always 0: a later version may name it.
    pub spare: [u8; 4],
}
