//! How often ears are asked: each of them once about each notice, whatever it answers. The journal is the one
//! that docs/reference/sessions.md gives this session; the lines are docs/reference/review.md's, by hand.
use session_text::{Session, read};
use std::alloc::Global;
use std::cell::Cell;
use std::test::Fail;
use vt_journal::parse;
use vt_review::{Ear, EarTable, Listener, Notice, Reviewed, review};

// A process at console 1 writes, and brings console 2 to the front by a call.
const SESSION: &str = "rows = 1\ncols = 4\nconsoles = [1, 2]\n[[process]]\nhome = 1\n\
    script = [\"open 1\", \"say 0 hi\", \"activate 0 2\"]\n";

const JOURNAL: &str = "%journal 2\n\
    k0 0 exit = ok\n\
    p1 0 open 1 = num 0\n\
    p1 1 signals = sigs 0\n\
    p1 2 write 0 6869 = num 2\n\
    p1 3 signals = sigs 0\n\
    p1 4 activate 0 2 = ok\n\
    p1 5 signals = sigs 0\n\
    p1 6 exit = ok\n\
    %end 8 514\n";

const EVERYTHING: EarTable = EarTable {
    kinds: 7,
    consoles: u64::MAX - 1,
};

const NOTHING: EarTable = EarTable {
    kinds: 0,
    consoles: 0,
};

// The lines of these ears for the journal.
fn told<F: Listener>(alloc: Global, ears: &[Ear<F>]) -> Result<Reviewed, Fail> {
    let session = read(alloc, SESSION.as_bytes())?;
    told_of(alloc, &session, ears)
}

fn told_of<F: Listener>(
    alloc: Global,
    session: &Session,
    ears: &[Ear<F>],
) -> Result<Reviewed, Fail> {
    let journal = parse(alloc, JOURNAL.as_bytes())?;
    Ok(review(alloc, session, &journal, ears)?)
}

// The lines of two ears over these listeners.
fn told_by_two<F: Listener>(
    alloc: Global,
    first: F,
    first_table: EarTable,
    second: F,
    second_table: EarTable,
) -> Result<Reviewed, Fail>
    requires first { F.hears first first_table }
    requires second { F.hears second second_table }
{
    let mut ears = Vec::new(alloc);
    ears.push(Ear::new(first, first_table))?;
    ears.push(Ear::new(second, second_table))?;
    told(alloc, ears.as_slice())
}

// How often each of two ears was asked.
#[derive(Drop)]
struct Counts {
    first: Cell<u32>,
    second: Cell<u32>,
}

impl Counts {
    fn count(&self, is_second: bool) {
        if is_second {
            self.second.set(self.second.get().wrapping_add(1));
        } else {
            self.first.set(self.first.get().wrapping_add(1));
        }
    }

    fn are(&self, each: u32) -> bool {
        self.first.get() == each && self.second.get() == each
    }
}

// The lines of both ears, counted. Both listeners are closures of one type, which a closure makes.
fn told_counting(
    alloc: Global,
    counts: &Counts,
    first: EarTable,
    second: EarTable,
) -> Result<Reviewed, Fail> {
    let make = move |is_second: bool| {
        let table = if is_second { second } else { first };
        move |n: Notice| {
            counts.count(is_second);
            table.says(n)
        }
    };
    told_by_two(alloc, make(false), first, make(true), second)
}

fn has_lines(reviewed: &Reviewed, wanted: &str) -> bool {
    match reviewed {
        Reviewed::Text(text) => text.as_slice() == wanted.as_bytes(),
        Reviewed::Illegal { .. } => false,
    }
}

#[test]
fn each_ear_is_asked_once_of_each_notice(rt: HostRuntime) -> Result<(), Fail> {
    let counts = Counts {
        first: Cell::new(0),
        second: Cell::new(0),
    };
    let reviewed = told_counting(rt.alloc(), &counts, EVERYTHING, NOTHING)?;
    assert!(rt; has_lines(&reviewed, "0 3 row 1 0 |hi  |\n0 5 display 2\n"));
    assert!(rt; counts.are(2), "each of two notices");
    Ok(())
}
