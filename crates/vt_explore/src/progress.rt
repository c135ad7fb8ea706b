/// Is shown how far a search is.
pub trait Progress {
    /// So many states were distinguished so far.
    fn tell(&mut self, states: usize);
}

/// Shows nobody.
#[derive(Drop)]
pub struct Silent;

impl Progress for Silent {
    fn tell(&mut self, _states: usize) {}
}
