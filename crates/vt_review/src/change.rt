//! `Change`: what an entry of a journal did.
ghost use Rattle.std.specs.Prelude.{◌≡◌};
ghost use Rattle.vt_review.specs.Announcements.{left_by};

use vt_events::Entry;
use vt_world::World;

/// What an entry of a journal did: its place, the machine before and after it, and the entry that was made.
#[derive(Clone, Copy)]
pub(crate) struct Change<'a> {
    pub place: u32,
    pub before: &'a World,
    pub after: &'a World,
    pub made: &'a Entry,
    ghost left: { after.now ≡ left_by before.now made.now },
}
