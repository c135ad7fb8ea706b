ghost use Rattle.std.specs.Prelude.{◌≡◌, ◌≤◌, length, option_copied};
ghost use Rattle.vt_events.specs.Calls.{make_parts, parts_of};

use crate::Event;
use crate::kind::{Kind, MOST_NUMBERS};
use arrayvec::ArrayVec;
use std::array;
use std::marker::Model;

/// The parts of a call: its kind, its numbers in the order of its words, and its bytes, if it holds any. This
/// project's own.
#[derive(Drop)]
pub struct Parts<'a> {
    kind: Kind,
    numbers: ArrayVec<u16, MOST_NUMBERS>,
    held: Option<&'a [u8]>,
}

impl<'a> Model for Parts<'a> {
    ghost use Rattle.std.specs.Prelude.{option_copied};
    ghost use Rattle.vt_events.specs.Calls.{PartsView, make_parts};

    ghost Value = { PartsView };

    ghost view = { λ parts. make_parts parts.kind parts.numbers.items (option_copied parts.held) };
}

impl<'a> Parts<'a> {
    /// The parts of the call. The byte of a scan is bytes, not a number.
    #[inline(always)]
    pub fn of(e: &'a Event) -> Parts<'a>
        ensures { result ≡ parts_of e.now }
    {
        match e {
            Event::Scan(hh) => make_parts(Kind::Scan, &[], Some(array::from_ref(hh))),
            Event::Exit => make_parts(Kind::Exit, &[], None),
            Event::OpenCon(n) => make_parts(Kind::OpenCon, &[*n], None),
            Event::CloseFd(fd) => make_parts(Kind::CloseFd, &[*fd], None),
            Event::Write(fd, b) => make_parts(Kind::Write, &[*fd], Some(b.as_slice())),
            Event::ReadIn(fd, m) => make_parts(Kind::ReadIn, &[*fd, *m], None),
            Event::WaitInput(fd) => make_parts(Kind::WaitInput, &[*fd], None),
            Event::WaitActive(fd, n) => make_parts(Kind::WaitActive, &[*fd, *n], None),
            Event::WaitSignal => make_parts(Kind::WaitSignal, &[], None),
            Event::WaitEnd => make_parts(Kind::WaitEnd, &[], None),
            Event::Activate(fd, n) => make_parts(Kind::Activate, &[*fd, *n], None),
            Event::Disallocate(fd, n) => make_parts(Kind::Disallocate, &[*fd, *n], None),
            Event::OpenQry(fd) => make_parts(Kind::OpenQry, &[*fd], None),
            Event::GetState(fd) => make_parts(Kind::GetState, &[*fd], None),
            Event::Resize(fd, r, c) => make_parts(Kind::Resize, &[*fd, *r, *c], None),
            Event::LockSwitch(fd) => make_parts(Kind::LockSwitch, &[*fd], None),
            Event::UnlockSwitch(fd) => make_parts(Kind::UnlockSwitch, &[*fd], None),
            Event::SetKd(fd, m) => make_parts(Kind::SetKd, &[*fd, *m], None),
            Event::GetKd(fd) => make_parts(Kind::GetKd, &[*fd], None),
            Event::SetMode(fd, m, w, r, a, f) => make_parts(
                Kind::SetMode,
                &[*fd, *m, *w, *r, *a, *f],
                None,
            ),
            Event::GetMode(fd) => make_parts(Kind::GetMode, &[*fd], None),
            Event::RelDisp(fd, a) => make_parts(Kind::RelDisp, &[*fd, *a], None),
            Event::SetKb(fd, m) => make_parts(Kind::SetKb, &[*fd, *m], None),
            Event::GetKb(fd) => make_parts(Kind::GetKb, &[*fd], None),
            Event::SetMeta(fd, m) => make_parts(Kind::SetMeta, &[*fd, *m], None),
            Event::GetMeta(fd) => make_parts(Kind::GetMeta, &[*fd], None),
            Event::SetLed(fd, v) => make_parts(Kind::SetLed, &[*fd, *v], None),
            Event::GetLed(fd) => make_parts(Kind::GetLed, &[*fd], None),
            Event::SetFlags(fd, v) => make_parts(Kind::SetFlags, &[*fd, *v], None),
            Event::GetFlags(fd) => make_parts(Kind::GetFlags, &[*fd], None),
            Event::SetEntry(fd, t, c, k, v) => make_parts(
                Kind::SetEntry,
                &[*fd, *t, *c, *k, *v],
                None,
            ),
            Event::GetEntry(fd, t, c) => make_parts(Kind::GetEntry, &[*fd, *t, *c], None),
            Event::SetFunc(fd, i, b) => make_parts(Kind::SetFunc, &[*fd, *i], Some(b.as_slice())),
            Event::GetFunc(fd, i) => make_parts(Kind::GetFunc, &[*fd, *i], None),
            Event::SetDia(fd, b) => make_parts(Kind::SetDia, &[*fd], Some(b.as_slice())),
            Event::GetDia(fd) => make_parts(Kind::GetDia, &[*fd], None),
            Event::SetCode(fd, s, c) => make_parts(Kind::SetCode, &[*fd, *s, *c], None),
            Event::GetCode(fd, s) => make_parts(Kind::GetCode, &[*fd, *s], None),
            Event::Accept(fd, s) => make_parts(Kind::Accept, &[*fd, *s], None),
            Event::SetMap(fd, b) => make_parts(Kind::SetMap, &[*fd], Some(b.as_slice())),
            Event::GetMap(fd) => make_parts(Kind::GetMap, &[*fd], None),
            Event::SetPal(fd, b) => make_parts(Kind::SetPal, &[*fd], Some(b.as_slice())),
            Event::GetPal(fd) => make_parts(Kind::GetPal, &[*fd], None),
            Event::Dump(k, n) => make_parts(Kind::Dump, &[*k, *n], None),
            Event::TakeSignals => make_parts(Kind::TakeSignals, &[], None),
            Event::Kill(p, s) => make_parts(Kind::Kill, &[*p, *s], None),
        }
    }

    /// The kind of the call.
    #[inline(always)]
    pub fn kind(&self) -> Kind
        ensures { result ≡ self.now.kind }
    {
        self.kind
    }

    /// The numbers of the call in order, at most six.
    #[inline(always)]
    pub fn numbers(&self) -> &[u16]
        ensures { result.now ≡ self.now.numbers }
    {
        self.numbers.as_slice()
    }

    /// The bytes that the call holds, if it holds any.
    #[inline(always)]
    pub fn held(&self) -> Option<&'a [u8]>
        ensures { option_copied result ≡ self.now.held }
    {
        self.held
    }
}

// The parts of a kind, of at most six numbers, and of bytes.
#[inline(always)]
fn make_parts<'a>(kind: Kind, numbers: &[u16], held: Option<&'a [u8]>) -> Parts<'a>
    requires { length numbers.now ≤ MOST_NUMBERS }
    ensures { result ≡ make_parts kind numbers.now (option_copied held.entry) }
{
    let mut kept = ArrayVec::new();
    let added = kept.try_extend_from_slice(numbers);
    prove!(added.is_ok());
    let _ = added; // only the proof reads it
    Parts {
        kind,
        numbers: kept,
        held,
    }
}
