ghost use Rattle.std.specs.Prelude.{◌≡◌, Contains, length, map, is_some};
ghost use Rattle.std.specs.List.{All};
ghost use Rattle.vt_events.specs.Calls.{held_of, numbers_of};
ghost use Rattle.vt_events.specs.Kinds.{blank, name_of};
ghost use Rattle.vt_events.specs.declared.kind.Kind.{Kind};

use crate::kind::Kind;

/// The form of the words of the calls of a kind.
pub(crate) struct CallForm {
    pub kind: Kind,
    pub name: &'static [u8],
    /// How many numbers follow the name.
    pub numbers: usize,
    /// Whether bytes follow the numbers.
    pub bytes: bool,
}

/// How many kinds there are.
const KIND_COUNT: usize = 46;

/// The forms of all kinds.
pub(crate) fn forms() -> &'static [CallForm]
    ensures each { (kind : Kind) → Contains (map (λ form. form.kind) result.now) kind }
    ensures names { All (λ form. form.name.now ≡ name_of form.kind) result.now }
{
    &FORMS
}

/// The form of the kind.
pub(crate) fn form_of(kind: Kind) -> &'static CallForm
    ensures name { result.now.name.now ≡ name_of kind }
    ensures numbers { result.now.numbers ≡ length (numbers_of (blank kind)) }
    ensures bytes { result.now.bytes ≡ is_some (held_of (blank kind)) }
{
    &FORMS[kind as usize]
}

// A form for each kind, in the order of the kinds. `dev/gen/call_lists.py` writes this list.
#[rattlefmt::skip]
static FORMS: [CallForm; KIND_COUNT] = [
    CallForm { kind: Kind::Scan, name: b"scan", numbers: 0, bytes: true },
    CallForm { kind: Kind::Exit, name: b"exit", numbers: 0, bytes: false },
    CallForm { kind: Kind::OpenCon, name: b"open", numbers: 1, bytes: false },
    CallForm { kind: Kind::CloseFd, name: b"close", numbers: 1, bytes: false },
    CallForm { kind: Kind::Write, name: b"write", numbers: 1, bytes: true },
    CallForm { kind: Kind::ReadIn, name: b"read", numbers: 2, bytes: false },
    CallForm { kind: Kind::WaitInput, name: b"waitinput", numbers: 1, bytes: false },
    CallForm { kind: Kind::WaitActive, name: b"waitactive", numbers: 2, bytes: false },
    CallForm { kind: Kind::WaitSignal, name: b"waitsignal", numbers: 0, bytes: false },
    CallForm { kind: Kind::WaitEnd, name: b"waitend", numbers: 0, bytes: false },
    CallForm { kind: Kind::Activate, name: b"activate", numbers: 2, bytes: false },
    CallForm { kind: Kind::Disallocate, name: b"disallocate", numbers: 2, bytes: false },
    CallForm { kind: Kind::OpenQry, name: b"openqry", numbers: 1, bytes: false },
    CallForm { kind: Kind::GetState, name: b"getstate", numbers: 1, bytes: false },
    CallForm { kind: Kind::Resize, name: b"resize", numbers: 3, bytes: false },
    CallForm { kind: Kind::LockSwitch, name: b"lock", numbers: 1, bytes: false },
    CallForm { kind: Kind::UnlockSwitch, name: b"unlock", numbers: 1, bytes: false },
    CallForm { kind: Kind::SetKd, name: b"setkd", numbers: 2, bytes: false },
    CallForm { kind: Kind::GetKd, name: b"getkd", numbers: 1, bytes: false },
    CallForm { kind: Kind::SetMode, name: b"setmode", numbers: 6, bytes: false },
    CallForm { kind: Kind::GetMode, name: b"getmode", numbers: 1, bytes: false },
    CallForm { kind: Kind::RelDisp, name: b"reldisp", numbers: 2, bytes: false },
    CallForm { kind: Kind::SetKb, name: b"setkb", numbers: 2, bytes: false },
    CallForm { kind: Kind::GetKb, name: b"getkb", numbers: 1, bytes: false },
    CallForm { kind: Kind::SetMeta, name: b"setmeta", numbers: 2, bytes: false },
    CallForm { kind: Kind::GetMeta, name: b"getmeta", numbers: 1, bytes: false },
    CallForm { kind: Kind::SetLed, name: b"setled", numbers: 2, bytes: false },
    CallForm { kind: Kind::GetLed, name: b"getled", numbers: 1, bytes: false },
    CallForm { kind: Kind::SetFlags, name: b"setflags", numbers: 2, bytes: false },
    CallForm { kind: Kind::GetFlags, name: b"getflags", numbers: 1, bytes: false },
    CallForm { kind: Kind::SetEntry, name: b"setent", numbers: 5, bytes: false },
    CallForm { kind: Kind::GetEntry, name: b"getent", numbers: 3, bytes: false },
    CallForm { kind: Kind::SetFunc, name: b"setfunc", numbers: 2, bytes: true },
    CallForm { kind: Kind::GetFunc, name: b"getfunc", numbers: 2, bytes: false },
    CallForm { kind: Kind::SetDia, name: b"setdia", numbers: 1, bytes: true },
    CallForm { kind: Kind::GetDia, name: b"getdia", numbers: 1, bytes: false },
    CallForm { kind: Kind::SetCode, name: b"setcode", numbers: 3, bytes: false },
    CallForm { kind: Kind::GetCode, name: b"getcode", numbers: 2, bytes: false },
    CallForm { kind: Kind::Accept, name: b"accept", numbers: 2, bytes: false },
    CallForm { kind: Kind::SetMap, name: b"setmap", numbers: 1, bytes: true },
    CallForm { kind: Kind::GetMap, name: b"getmap", numbers: 1, bytes: false },
    CallForm { kind: Kind::SetPal, name: b"setpal", numbers: 1, bytes: true },
    CallForm { kind: Kind::GetPal, name: b"getpal", numbers: 1, bytes: false },
    CallForm { kind: Kind::Dump, name: b"dump", numbers: 2, bytes: false },
    CallForm { kind: Kind::TakeSignals, name: b"signals", numbers: 0, bytes: false },
    CallForm { kind: Kind::Kill, name: b"kill", numbers: 2, bytes: false },
];
