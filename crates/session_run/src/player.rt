ghost use Rattle.std.specs.Prelude.{◌≡◌, ◌∷◌, ◌++◌, [], None, Some, IfOk, OnOk};
ghost use Rattle.session_order.specs.Ends.{Setup};
ghost use Rattle.session_order.specs.Serial.{IsSerial, Played, call_now, entry_at, nothing_played, turn};
ghost use Rattle.session_order.specs.Sessions.{setup_of};
ghost use Rattle.session_run.specs.Playing.{IsAt, IsEnd};
ghost use Rattle.session_run.specs.Runs.{IsRightRun, run_result};
ghost use Rattle.session_text.specs.Programs.{program_of};
ghost use Rattle.vt_events.specs.Charge.{charge_of};
ghost use Rattle.vt_journal.specs.Room.{HasRoom};

use session_order::{SessionProgress, session_laws, start_of};
use session_text::{Program, Session};
use std::alloc::Global;
use vt_base::{CallerNo, NoMemory};
use vt_events::{Entry, Event, charge};
use vt_hub::Run;
use vt_journal::{Full, Log};
use vt_world::World;

/// A machine, its journal so far, how far each caller is, and where the play stopped.
#[derive(Drop)]
pub(crate) struct Player {
    pub(crate) world: World,
    pub(crate) log: Log,
    pub(crate) standing: SessionProgress,
    pub(crate) stop: Option<Full>,
}

impl Player {
    /// A play in which nothing was called yet.
    pub(crate) fn open(alloc: Global, s: &Session) -> Result<Player, NoMemory>
        ensures { IfOk result (λ player. IsAt (setup_of s.now) nothing_played player) }
    {
        let limits = s.limits();
        let world = start_of(alloc, s)?;
        let log = Log::with_room(alloc, limits.events, limits.bytes)?;
        let standing = SessionProgress::start(alloc)?;
        Ok(Player {
            world,
            log,
            standing,
            stop: None,
        })
    }

    /// Makes p's call, or stops if there is no room for it.
    pub(crate) fn call(
        &mut self,
        alloc: Global,
        program: &Program,
        p: CallerNo,
        event: Event,
    ) -> Result<(), NoMemory>
        ensures { OnOk result ((o : Setup) (t : Played)
            → program_of o.programs p ≡ Some program.now → t.stop ≡ None
            → call_now o t.history p ≡ Some event
            → IsAt o t self.old → IsAt o (turn o p t) self.new) }
    {
        let charge = charge(&event);
        if let Some(full) = self.log.stop(charge) {
            self.stop = Some(full);
            return Ok(());
        }
        self.enter(alloc, program, p, event, charge)
    }

    /// The run of the session that was played to its end.
    pub(crate) fn end(self, s: &Session) -> Run
        requires { IsEnd (setup_of s.now) s.now.turns self }
        ensures serial { IsSerial (setup_of s.now) s.now.turns (run_result result) }
        ensures right { IsRightRun s.now result }
    {
        session_laws(s);
        let Player {
            world,
            log,
            stop,
            ..
        } = self;
        Run { world, log, stop }
    }

    // Makes p's call, which has that charge, and enters it with its answer.
    fn enter(
        &mut self,
        alloc: Global,
        program: &Program,
        p: CallerNo,
        event: Event,
        charge: u32,
    ) -> Result<(), NoMemory>
        requires charge { charge ≡ charge_of event }
        requires room { HasRoom self.old.log charge }
        ensures { OnOk result ((o : Setup) (t : Played)
            → program_of o.programs p ≡ Some program.now → t.stop ≡ None
            → call_now o t.history p ≡ Some event → IsAt o t self.old
            → IsAt o (record { history = t.history ++ entry_at o.start t.history p event ∷ []; stop = None })
            self.new) }
    {
        let _entries = self.log.entries(); // it says that the entries are few
        let reply = self.world.call(alloc, p, &event)?;
        let seq = self.standing.count(p);
        self.standing.took(p, program, &reply);
        let entry = Entry {
            caller: p,
            seq,
            event,
            reply,
        };
        self.log.push_counted(entry, charge);
        Ok(())
    }
}
