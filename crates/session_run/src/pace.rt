//! How the workers of a race keep together. No clause covers it.
use std::sync::atomic::AtomicU64;
use std::sync::atomic::Ordering::SeqCst;
use std::thread::yield_now;
use vt_events::Reply;

/// How often a worker looks whether all workers have begun, and yields its processor between two looks.
const LOOKS: u32 = 10_000;

/// How many calls a worker makes in a row before it yields its processor after each further call.
const CALLS: u32 = 128;

/// The start line of a race, and the number of workers that have calls to make.
#[derive(Drop)]
pub(crate) struct Pace {
    workers: u64,
    begun: AtomicU64,
    busy: AtomicU64,
}

impl Pace {
    /// The pace of a race of so many workers.
    pub(crate) fn of(workers: usize) -> Pace {
        Pace {
            workers: workers as u64,
            begun: AtomicU64::new(0),
            busy: AtomicU64::new(workers as u64),
        }
    }

    /// A worker at the start line: it goes on if all workers have begun, or after so many looks. So the
    /// race ends even if no thread can be made.
    pub(crate) fn begin(&self) -> Stride<'_> {
        self.begun.fetch_add(1, SeqCst);
        for _ in 0..LOOKS {
            if self.begun.load(SeqCst) >= self.workers {
                break;
            }
            yield_now();
        }
        Stride {
            pace: self,
            next: 0,
            row: 0,
            waits: false,
        }
    }
}

/// The calls of one worker.
#[derive(Drop)]
pub(crate) struct Stride<'a> {
    pace: &'a Pace,
    // The place after its last call in the journal.
    next: u32,
    // How many calls it has made in a row.
    row: u32,
    // Whether its last call was answered "wait".
    waits: bool,
}

impl Stride<'_> {
    /// Notes a call at this place. After many calls in a row the processor is yielded, if other workers
    /// have calls to make.
    pub(crate) fn made(&mut self, at: u32, reply: &Reply) {
        self.row = if at == self.next {
            self.row.saturating_add(1)
        } else {
            1
        };
        self.next = at.saturating_add(1);
        self.wait(matches!(reply, Reply::Wait));
        if self.row >= CALLS && self.pace.busy.load(SeqCst) > 1 {
            yield_now();
        }
    }

    /// Ends the worker.
    pub(crate) fn end(mut self) {
        self.wait(true);
    }

    // A worker that waits has no call to make.
    fn wait(&mut self, waits: bool) {
        if waits && !self.waits {
            self.pace.busy.fetch_sub(1, SeqCst);
        }
        if self.waits && !waits {
            self.pace.busy.fetch_add(1, SeqCst);
        }
        self.waits = waits;
    }
}
