ghost use Rattle.std.specs.Prelude.{◌≡◌};
ghost use Rattle.vt_journal.specs.Room.{tail_at};

use vt_journal::{Full, Log, Tail};
use vt_world::World;

/// A machine after calls, and their journal.
#[derive(Drop)]
pub struct Run {
    pub world: World,
    pub log: Log,
    /// The call that found no room, if there was one.
    pub stop: Option<Full>,
}

impl Run {
    /// How its journal ends.
    pub fn tail(&self) -> Tail
        ensures { result ≡ tail_at self.now.log.entries self.now.stop }
    {
        match self.stop {
            Some(full) => Tail::Full(full),
            None => Tail::End {
                events: self.log.entries().len() as u32,
                bytes: self.log.bytes(),
            },
        }
    }
}
