//! A guess at the kind of a name.

use crate::kind::Kind;

/// A kind that probably has the name. The caller compares the names, so a wrong guess costs time alone. The index
/// follows from the name's first, last and fourth byte and its length.
#[inline(always)]
pub(crate) fn guess_kind(name: &[u8]) -> Kind {
    let long = name.len();
    if long < 4 || 11 < long {
        return Kind::Scan;
    }
    let first = usize::from(name[0]);
    let last = usize::from(name[long - 1]);
    let fourth = usize::from(name[3]);
    LIKELY[(12 * first + 19 * last + 13 * fourth + 9 * long) % GUESS_PLACES]
}

/// The length of the table of guesses.
const GUESS_PLACES: usize = 96;

// For each index the kind whose name has it; `scan` if no name has it. `dev/gen/call_lists.py` writes this list.
#[rattlefmt::skip]
static LIKELY: [Kind; GUESS_PLACES] = [
    Kind::Scan, Kind::Scan, Kind::Resize, Kind::WaitEnd, Kind::Write, Kind::Scan, Kind::Scan, Kind::GetEntry,
    Kind::Activate, Kind::Scan, Kind::Scan, Kind::Scan, Kind::SetKd, Kind::Scan, Kind::Scan, Kind::Scan, Kind::Scan,
    Kind::GetDia, Kind::GetState, Kind::GetFlags, Kind::Dump, Kind::Scan, Kind::GetKb, Kind::Scan, Kind::Scan,
    Kind::Scan, Kind::Scan, Kind::GetMode, Kind::Scan, Kind::Scan, Kind::Scan, Kind::Accept, Kind::Scan, Kind::Scan,
    Kind::SetLed, Kind::GetMap, Kind::OpenQry, Kind::WaitInput, Kind::UnlockSwitch, Kind::CloseFd, Kind::Scan,
    Kind::SetCode, Kind::SetFunc, Kind::Scan, Kind::Scan, Kind::Scan, Kind::SetPal, Kind::GetMeta, Kind::Scan,
    Kind::WaitActive, Kind::Scan, Kind::Scan, Kind::LockSwitch, Kind::Scan, Kind::Scan, Kind::SetEntry, Kind::Scan,
    Kind::Scan, Kind::Scan, Kind::RelDisp, Kind::GetKd, Kind::Scan, Kind::Scan, Kind::Disallocate, Kind::Exit,
    Kind::SetDia, Kind::TakeSignals, Kind::SetFlags, Kind::Scan, Kind::Scan, Kind::SetKb, Kind::Scan, Kind::Kill,
    Kind::Scan, Kind::Scan, Kind::SetMode, Kind::Scan, Kind::Scan, Kind::Scan, Kind::Scan, Kind::Scan, Kind::Scan,
    Kind::GetLed, Kind::SetMap, Kind::Scan, Kind::Scan, Kind::WaitSignal, Kind::Scan, Kind::OpenCon, Kind::GetCode,
    Kind::GetFunc, Kind::Scan, Kind::ReadIn, Kind::Scan, Kind::GetPal, Kind::SetMeta,
];
