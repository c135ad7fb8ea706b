/// An accent and a character, and the character that the two make (keymaps(5), "COMPOSE
/// DEFINITIONS").
#[derive(Clone, Copy, Debug, Default, PartialEq, Eq)]
pub struct Pair {
    pub accent: u16,
    pub base: u16,
    pub result: u16,
}
