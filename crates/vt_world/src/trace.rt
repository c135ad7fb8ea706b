ghost use Rattle.std.specs.Prelude.{◌≡◌, ◌≤◌, ◌<◌, [], IfOk, length};
ghost use Rattle.vt_world.specs.Heard.{hops_after, with_mark};

use std::alloc::Global;
use std::marker::Model;
use vt_base::NoMemory;
use vt_switch::Mark;

/// The room for marks that is allocated at the start.
const TRACE_ROOM: usize = 4_096;

/// The most marks of one event: a write makes at most 1,024 requests, one for every four bytes, and
/// a request makes at most three marks.
pub(crate) const MOST_MARKS: usize = 3_072;

/// The marks of the last event, and the number of switches of the display since the start.
#[derive(Drop)]
pub(crate) struct Trace {
    marks: Vec<Mark>,
    hops: u64,
}

impl Model for Trace {
    ghost use Rattle.std.specs.Prelude.{◌≤◌, vec_capacity, vec_len};
    ghost use Rattle.vt_world.specs.State.{Trace};

    ghost Value = { Trace };

    ghost view = { λ t. record { marks = t.marks.items; hops = t.hops } };

    ghost invariant = { λ t. (4096 ≤ vec_capacity t.marks) × (vec_len t.marks ≤ 3072) };
}

impl Trace {
    /// An empty trace. All room is allocated here.
    pub(crate) fn start(alloc: Global) -> Result<Trace, NoMemory>
        ensures marks { IfOk result (λ trace. trace.marks ≡ []) }
        ensures hops { IfOk result (λ trace. trace.hops ≡ 0) }
    {
        let marks = Vec::with_capacity(alloc, TRACE_ROOM)?;
        Ok(Trace { marks, hops: 0 })
    }

    /// Removes the marks.
    pub(crate) fn clear(&mut self)
        ensures marks { self.new.marks ≡ [] }
        ensures hops { self.new.hops ≡ self.old.hops }
    {
        self.marks.clear();
    }

    /// Becomes the other trace.
    pub(crate) fn copy_from(&mut self, other: &Trace)
        ensures { self.new ≡ other.now }
    {
        self.marks.clear();
        let copied = self.marks.extend_from_slice(other.marks());
        prove!(copied.is_ok());
        self.hops = other.hops;
    }

    /// Appends a mark.
    pub(crate) fn push(&mut self, m: &Mark)
        requires { length self.old.marks < MOST_MARKS }
        ensures { self.new ≡ with_mark m.now self.old }
    {
        self.hops = hops_after(m, self.hops);
        let pushed = self.marks.extend_from_slice(&[*m]);
        prove!(pushed.is_ok());
    }

    /// The marks in order.
    pub(crate) fn marks(&self) -> &[Mark]
        ensures items { result.now ≡ self.now.marks }
        ensures few { length result.now ≤ 3072 }
    {
        self.marks.as_slice()
    }

    /// The number of switches of the display, at most the greatest u64.
    pub(crate) fn hops(&self) -> u64
        ensures { result ≡ self.now.hops }
    {
        self.hops
    }
}

// The number of switches of the display after the mark.
fn hops_after(m: &Mark, hops: u64) -> u64
    ensures { result ≡ hops_after m.now hops }
{
    match m {
        Mark::Hopped(_) => hops.saturating_add(1),
        _ => hops,
    }
}
