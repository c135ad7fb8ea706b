/// The words of a mode after the first, unchanged.
#[derive(Clone, Copy, Debug, PartialEq, Eq)]
pub struct Words {
    pub waitv: u16,
    pub relsig: u16,
    pub acqsig: u16,
    pub frsig: u16,
}
