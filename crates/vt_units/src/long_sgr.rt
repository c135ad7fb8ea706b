/// SGR of three short parameters or of five, without a leading `?`.
#[derive(Clone, Copy)]
pub struct LongSgr {
    pub first: u16,
    pub second: u16,
    pub third: u16,
    /// The fourth and the fifth parameter, if there are five.
    pub fourth: u16,
    pub fifth: u16,
    pub five: bool,
    /// The number of its bytes.
    pub count: usize,
}
