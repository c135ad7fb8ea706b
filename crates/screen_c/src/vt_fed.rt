/// `struct vt_fed`: how many bytes a feed ran, and how many side effects and rows it wrote.
#[repr(C)]
#[derive(Clone, Copy, Debug, Drop, PartialEq)]
pub struct VtFed {
    /// How many bytes were run.
    pub taken: usize,
    /// How many side effects were written.
    pub outs: usize,
    /// How many rows were written.
    pub rows: usize,
    /// 0.
    pub spare: [usize; 1],
}
