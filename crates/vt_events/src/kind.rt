ghost use Rattle.std.specs.Prelude.{◌≡◌, ◌≢◌, ◌≤◌, true, length, is_some, IfSome, IfNone};
ghost use Rattle.vt_events.specs.Calls.{held_of, numbers_of};
ghost use Rattle.vt_events.specs.Kinds.{blank, call_of, name_of, takes};
ghost use Rattle.vt_events.specs.declared.kind.Kind.{Kind};

use crate::Event;
use crate::forms::{form_of, forms};
use crate::kind_guess::guess_kind;
use vt_base::Bytes;

/// The most numbers of a call.
pub const MOST_NUMBERS: usize = 6;

/// The kind of a call, named as its variant of [`Event`]. This project's own.
#[derive(Clone, Copy, PartialEq, Eq)]
pub enum Kind {
    Scan,
    Exit,
    OpenCon,
    CloseFd,
    Write,
    ReadIn,
    WaitInput,
    WaitActive,
    WaitSignal,
    WaitEnd,
    Activate,
    Disallocate,
    OpenQry,
    GetState,
    Resize,
    LockSwitch,
    UnlockSwitch,
    SetKd,
    GetKd,
    SetMode,
    GetMode,
    RelDisp,
    SetKb,
    GetKb,
    SetMeta,
    GetMeta,
    SetLed,
    GetLed,
    SetFlags,
    GetFlags,
    SetEntry,
    GetEntry,
    SetFunc,
    GetFunc,
    SetDia,
    GetDia,
    SetCode,
    GetCode,
    Accept,
    SetMap,
    GetMap,
    SetPal,
    GetPal,
    Dump,
    TakeSignals,
    Kill,
}

impl Kind {
    /// The kind of the calls of this name, if there is one.
    pub fn named(name: &[u8]) -> Option<Kind>
        ensures found { IfSome result (λ kind. name_of kind ≡ name.now) }
        ensures none { IfNone result ((kind : Kind) → name_of kind ≢ name.now) }
    {
        let kind = guess_kind(name);
        if kind.name().len() == name.len() && kind.name() == name {
            return Some(kind);
        }
        Kind::looked_up(name)
    }

    // The kind of the calls of this name, looked for in every form.
    fn looked_up(name: &[u8]) -> Option<Kind>
        ensures found { IfSome result (λ kind. name_of kind ≡ name.now) }
        ensures none { IfNone result ((kind : Kind) → name_of kind ≢ name.now) }
    {
        for form in forms() {
            if form.name.len() == name.len() && form.name == name {
                return Some(form.kind);
            }
        }
        None
    }

    /// The name of its calls.
    pub fn name(self) -> &'static [u8]
        ensures { result.now ≡ name_of self }
    {
        form_of(self).name
    }

    /// How many numbers follow the name.
    pub fn count(self) -> usize
        ensures same { result ≡ length (numbers_of (blank self)) }
        ensures most { result ≤ MOST_NUMBERS }
    {
        form_of(self).numbers
    }

    /// Whether bytes follow the numbers.
    pub fn holds_bytes(self) -> bool
        ensures { result ≡ is_some (held_of (blank self)) }
    {
        form_of(self).bytes
    }

    /// Whether a call of this kind may hold that many bytes. A scan holds one.
    pub fn takes(self, bytes: usize) -> bool
        ensures { result ≡ takes self bytes }
    {
        match self {
            Kind::Scan => bytes == 1,
            _ => true,
        }
    }

    /// The call of this kind with these numbers and, if it holds bytes, these bytes, which have no spare room.
    #[inline(always)]
    pub fn call(self, n: &[u16], b: Bytes) -> Event
        requires many { length n.now ≡ length (numbers_of (blank self)) }
        requires few { takes self (length b.bytes) ≡ true }
        requires room { b.room ≡ 0 }
        ensures { result ≡ call_of self n.now b.bytes }
    {
        match self {
            Kind::Scan => Event::Scan(b.as_slice()[0]),
            Kind::Exit => Event::Exit,
            Kind::OpenCon => Event::OpenCon(n[0]),
            Kind::CloseFd => Event::CloseFd(n[0]),
            Kind::Write => Event::Write(n[0], b),
            Kind::ReadIn => Event::ReadIn(n[0], n[1]),
            Kind::WaitInput => Event::WaitInput(n[0]),
            Kind::WaitActive => Event::WaitActive(n[0], n[1]),
            Kind::WaitSignal => Event::WaitSignal,
            Kind::WaitEnd => Event::WaitEnd,
            Kind::Activate => Event::Activate(n[0], n[1]),
            Kind::Disallocate => Event::Disallocate(n[0], n[1]),
            Kind::OpenQry => Event::OpenQry(n[0]),
            Kind::GetState => Event::GetState(n[0]),
            Kind::Resize => Event::Resize(n[0], n[1], n[2]),
            Kind::LockSwitch => Event::LockSwitch(n[0]),
            Kind::UnlockSwitch => Event::UnlockSwitch(n[0]),
            Kind::SetKd => Event::SetKd(n[0], n[1]),
            Kind::GetKd => Event::GetKd(n[0]),
            Kind::SetMode => Event::SetMode(n[0], n[1], n[2], n[3], n[4], n[5]),
            Kind::GetMode => Event::GetMode(n[0]),
            Kind::RelDisp => Event::RelDisp(n[0], n[1]),
            Kind::SetKb => Event::SetKb(n[0], n[1]),
            Kind::GetKb => Event::GetKb(n[0]),
            Kind::SetMeta => Event::SetMeta(n[0], n[1]),
            Kind::GetMeta => Event::GetMeta(n[0]),
            Kind::SetLed => Event::SetLed(n[0], n[1]),
            Kind::GetLed => Event::GetLed(n[0]),
            Kind::SetFlags => Event::SetFlags(n[0], n[1]),
            Kind::GetFlags => Event::GetFlags(n[0]),
            Kind::SetEntry => Event::SetEntry(n[0], n[1], n[2], n[3], n[4]),
            Kind::GetEntry => Event::GetEntry(n[0], n[1], n[2]),
            Kind::SetFunc => Event::SetFunc(n[0], n[1], b),
            Kind::GetFunc => Event::GetFunc(n[0], n[1]),
            Kind::SetDia => Event::SetDia(n[0], b),
            Kind::GetDia => Event::GetDia(n[0]),
            Kind::SetCode => Event::SetCode(n[0], n[1], n[2]),
            Kind::GetCode => Event::GetCode(n[0], n[1]),
            Kind::Accept => Event::Accept(n[0], n[1]),
            Kind::SetMap => Event::SetMap(n[0], b),
            Kind::GetMap => Event::GetMap(n[0]),
            Kind::SetPal => Event::SetPal(n[0], b),
            Kind::GetPal => Event::GetPal(n[0]),
            Kind::Dump => Event::Dump(n[0], n[1]),
            Kind::TakeSignals => Event::TakeSignals,
            Kind::Kill => Event::Kill(n[0], n[1]),
        }
    }
}
