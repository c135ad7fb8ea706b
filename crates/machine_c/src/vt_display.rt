ghost use Rattle.std.specs.Prelude.{◌≡◌};
ghost use Rattle.machine_c.specs.Shown.{c_display};

use machine::Machine;

/// `struct vt_display`: the display and the journal.
#[repr(C)]
#[derive(Clone, Copy, Debug, PartialEq)]
pub(crate) struct VtDisplay {
    /// The switches so far.
    pub hops: u64,
    /// The entries that are gone from the journal.
    pub gone: u64,
    /// The entries of the journal.
    pub entries: u32,
    /// The console in front.
    pub front: u8,
    /// The console that waits for the display, or 0.
    pub pending: u8,
    /// 1 if switching is locked.
    pub locked: u8,
    /// 0.
    pub spare: [u8; 17],
}

impl VtDisplay {
    pub(crate) fn of(machine: &Machine) -> VtDisplay
        ensures { result ≡ c_display machine.now }
    {
        let world = machine.world();
        VtDisplay {
            hops: world.hops(),
            gone: machine.gone(),
            entries: machine.log().entries().len() as u32,
            front: world.display().get() as u8,
            pending: match world.pending_console() {
                Some(c) => c.get() as u8,
                None => 0,
            },
            locked: u8::from(world.locked()),
            spare: [0; 17],
        }
    }
}
