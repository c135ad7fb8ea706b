ghost use Rattle.std.specs.Prelude.{◌≡◌, List, [], ◌∷◌, ◌++◌, ⊤, OnErr, OnOk};
ghost use Rattle.vt_check.specs.Watching.{IsNextEntry, MaySee};
ghost use Rattle.vt_events.specs.declared.entry.Entry.{Entry};
ghost use Rattle.vt_world.specs.State.{WorldState};

use std::alloc::Global;
use vt_base::NoMemory;
use vt_events::Entry;
use vt_world::World;

/// A witness for [`watch`](crate::watch): it is shown each entry of a journal while it is judged, with the
/// machine after it.
pub trait Witness {
    ghost use Rattle.std.specs.Prelude.{List};
    ghost use Rattle.vt_events.specs.declared.entry.Entry.{Entry};
    ghost use Rattle.vt_world.specs.State.{WorldState};

    /// The relation of the witness before and after it sees these entries, from this machine on. An
    /// implementation states here what its callers may use.
    ghost saw: { Self → WorldState → List Entry → Self → Type 0 };

    /// The relation of the witness before it sees these entries, from this machine on, and after memory ran out
    /// while it took the next one. An implementation states here what its callers may use then.
    ghost saw_part: { Self → WorldState → List Entry → Entry → Self → Type 0 };

    /// Takes the entry at this place, and the machine after it.
    fn see(
        &mut self,
        alloc: Global,
        place: u32,
        entry: &Entry,
        after: &World,
    ) -> Result<(), NoMemory>
        requires { MaySee saw self.old place entry.now after.now }
        ensures seen { OnOk result ((first : Self) (start : WorldState) (before : List Entry)
            → saw first start before self.old
            → IsNextEntry start before place entry.now after.now
            → saw first start (before ++ entry.now ∷ []) self.new) }
        ensures part { OnErr result ((first : Self) (start : WorldState) (before : List Entry)
            → saw first start before self.old
            → IsNextEntry start before place entry.now after.now
            → saw_part first start before entry.now self.new) };
}

/// A witness that keeps nothing.
#[derive(Drop)]
pub(crate) struct Nobody;

impl Witness for Nobody {
    ghost saw = { λ first start entries now. ⊤ };

    ghost saw_part = { λ first start entries next now. ⊤ };

    fn see(
        &mut self,
        _alloc: Global,
        _place: u32,
        _entry: &Entry,
        _after: &World,
    ) -> Result<(), NoMemory> {
        Ok(())
    }
}
