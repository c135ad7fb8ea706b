//! A whole sequence at the start of a text.
ghost use Rattle.std.specs.Prelude.{◌≡◌, ◌≤◌, []};
ghost use Rattle.vt_units.specs.WholeSequence.{control_ahead, ends_control, ends_escape, mid_ahead, numbers_ahead, opened_ahead, parameters_ahead, sequence_of};

use crate::bytes::{is_mid, is_within, opens_string};
use crate::numbers::read_numbers;
use crate::{Params, WholeSequence};

/// The sequence that these bytes begin with, if it is one that is read at once. Its parameters are then in
/// `params`.
pub(crate) fn sequence_ahead(b: &[u8], params: &mut Params) -> WholeSequence
    requires { params.old ≡ [] }
    ensures sequence { sequence_of result params.new ≡ opened_ahead b.now }
    ensures parameters { params.new ≡ parameters_ahead (opened_ahead b.now) }
{
    match b {
        [0x1B, b'[', more @ ..] => control_ahead(more, params),
        [0x1B, mid, more @ ..] if is_mid(*mid) => mid_ahead(*mid, more),
        [0x1B, last, ..] if ends_escape(*last) => WholeSequence::Esc {
            mid: 0,
            last: *last,
            count: 2,
        },
        _ => WholeSequence::Nothing,
    }
}

// The sequence that goes on after ESC and an intermediate byte.
fn mid_ahead(mid: u8, more: &[u8]) -> WholeSequence
    ensures sequence { sequence_of result [] ≡ mid_ahead mid more.now }
    ensures parameters { parameters_ahead (mid_ahead mid more.now) ≡ [] }
{
    match more {
        [last, ..] if is_within(0x30, 0x7E, *last) => WholeSequence::Esc {
            mid,
            last: *last,
            count: 3,
        },
        _ => WholeSequence::Nothing,
    }
}

// The sequence that goes on after ESC [.
fn control_ahead(text: &[u8], params: &mut Params) -> WholeSequence
    ensures sequence { sequence_of result params.new ≡ control_ahead text.now }
    ensures parameters { params.new ≡ parameters_ahead (control_ahead text.now) }
{
    match text {
        [b'?', numbers @ ..] => numbers_ahead(true, 3, numbers, params),
        _ => numbers_ahead(false, 2, text, params),
    }
}

// Parameters and a last byte, after so many bytes.
#[inline(always)]
fn numbers_ahead(private: bool, before: usize, text: &[u8], params: &mut Params) -> WholeSequence
    requires { before ≤ 3 }
    ensures sequence { sequence_of result params.new ≡ numbers_ahead private before text.now }
    ensures parameters { params.new ≡ parameters_ahead (numbers_ahead private before text.now) }
{
    let len = read_numbers(text, params);
    if len < text.len() && ends_control(text[len]) {
        WholeSequence::Csi {
            private,
            last: text[len],
            count: before + len + 1,
        }
    } else {
        params.clear();
        WholeSequence::Nothing
    }
}

pub(crate) fn ends_control(b: u8) -> bool
    ensures { result ≡ ends_control b }
{
    is_within(0x40, 0x7E, b) && b != b'['
}

pub(crate) fn ends_escape(b: u8) -> bool
    ensures { result ≡ ends_escape b }
{
    is_within(0x30, 0x7E, b) && !(opens_string(b) || b == b'[' || b == b']')
}
