/// A control sequence of one or two short parameters, without a leading `?`.
#[derive(Clone, Copy)]
pub struct ShortCsi {
    pub first: u16,
    /// The second parameter, if there are two.
    pub second: u16,
    pub both: bool,
    pub last: u8,
    /// The number of its bytes.
    pub count: usize,
}
