//! The console whose screen an event may change.
ghost use Rattle.std.specs.Prelude.{◌≡◌, ◌≢◌, ◌≤◌, ℕ, Some, false};
ghost use Rattle.vt_world.specs.StepLaws.{touches};

use vt_base::{CallerNo, ConsoleNo};
use vt_events::Event;
use vt_world::World;

/// The console that the event touches, if it is one.
pub(crate) fn touched(world: &World, p: CallerNo, event: &Event) -> Option<ConsoleNo>
    ensures { (n : ℕ) → 1 ≤ n → n ≤ 63 → result ≢ Some n
        → touches world.now p event.now n ≡ false }
{
    match event {
        Event::Write(fd, _)
        | Event::Resize(fd, _, _)
        | Event::SetMap(fd, _)
        | Event::SetPal(fd, _) => world.console_of(p, *fd),
        Event::OpenCon(0) => Some(world.display()),
        Event::OpenCon(n) | Event::Activate(_, n) => ConsoleNo::new(*n),
        _ => None,
    }
}
