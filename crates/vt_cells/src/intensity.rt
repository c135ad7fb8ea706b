/// How bright a character is (console_codes(4), "ECMA-48 Select Graphic Rendition").
#[derive(Clone, Copy, Debug, PartialEq, Eq)]
pub enum Intensity {
    /// Half-bright.
    Dim,
    Normal,
    Bold,
}
