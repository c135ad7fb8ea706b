//! Makes a call of a caller.
ghost use Rattle.std.specs.Prelude.{◌≡◌, ◌≤◌, IfNone, IfSome, None, Some, length, true};
ghost use Rattle.c_calls.specs.Codes.{NOTHING, OK, RANGE};
ghost use Rattle.c_calls.specs.Places.{with_items};
ghost use Rattle.machine.specs.MachineState.{forgotten};
ghost use Rattle.machine_c.specs.Calls.{Answers, IsCall, places};
ghost use Rattle.vt_events.specs.Calls.{numbers_of};
ghost use Rattle.vt_events.specs.Charge.{text_of_reply};
ghost use Rattle.vt_events.specs.Kinds.{blank, call_of, takes};
ghost use Rattle.vt_events.specs.declared.kind.Kind.{Kind};

use crate::handle::MachineHandle;
use crate::vt_reply::VtReply;
use crate::words::{FoundCall, find_call};
use c_calls::{change, code};
use machine::{CallError, Machine};
use std::alloc::Global;
use vt_base::{Bytes, CallerNo};
use vt_events::{Event, Reply, reply_bytes};

/// Makes the call of this name, with these numbers and bytes, and writes its answer, the bytes of it to `bytes`.
#[unsafe(no_mangle)]
pub extern "C" fn vt_nonnull_machine_call(
    h: &mut MachineHandle,
    alloc: Global,
    caller: u32,
    name: &[u8],
    numbers: &[u16],
    held: &[u8],
    reply: &mut VtReply,
    bytes: &mut [u8],
) -> u8
    ensures nothing { IfNone h.old.value ((result ≡ NOTHING)
        × (places h.new.value reply.new bytes.new ≡ places h.old.value reply.old bytes.old)) }
    ensures range { IfSome h.old.value (λ m.
        ((kind : Kind) → ¬ IsCall caller name.now numbers.now held.now kind)
        → (result ≡ RANGE) × (places h.new.value reply.new bytes.new ≡ places h.old.value reply.old bytes.old)) }
    ensures call { IfSome h.old.value (λ m. (kind : Kind) → IsCall caller name.now numbers.now held.now kind
        → Answers caller (call_of kind numbers.now held.now) m
        (places h.old.value reply.old bytes.old) (places h.new.value reply.new bytes.new) result) }
{
    change!(h, alloc, machine => call_words(
        &mut machine,
        alloc,
        caller,
        name,
        numbers,
        held,
        reply,
        bytes,
    ))
}

// Makes the call of these words, if they are those of a call.
fn call_words(
    machine: &mut Machine,
    alloc: Global,
    caller: u32,
    name: &[u8],
    numbers: &[u16],
    held: &[u8],
    reply: &mut VtReply,
    bytes: &mut [u8],
) -> u8
    ensures range { ((kind : Kind) → ¬ IsCall caller name.now numbers.now held.now kind)
        → (result ≡ RANGE)
        × (places (Some machine.new) reply.new bytes.new ≡ places (Some machine.old) reply.old bytes.old) }
    ensures call { (kind : Kind) → IsCall caller name.now numbers.now held.now kind
        → Answers caller (call_of kind numbers.now held.now) machine.old
        (places (Some machine.old) reply.old bytes.old) (places (Some machine.new) reply.new bytes.new) result }
{
    match find_call(caller, name, numbers, held) {
        None => code::RANGE,
        Some(found) => call_kind(machine, alloc, found, numbers, held, reply, bytes),
    }
}

fn call_kind(
    machine: &mut Machine,
    alloc: Global,
    found: FoundCall,
    numbers: &[u16],
    held: &[u8],
    reply: &mut VtReply,
    bytes: &mut [u8],
) -> u8
    requires counted { length numbers.now ≡ length (numbers_of (blank found.kind)) }
    requires fit { takes found.kind (length held.now) ≡ true }
    ensures { Answers found.caller (call_of found.kind numbers.now held.now) machine.old
        (places (Some machine.old) reply.old bytes.old) (places (Some machine.new) reply.new bytes.new) result }
{
    match Bytes::from_slice(alloc, held) {
        Err(_) => code::NO_MEMORY,
        Ok(b) => call_event(
            machine,
            alloc,
            found.caller,
            found.kind.call(numbers, b),
            reply,
            bytes,
        ),
    }
}

fn call_event(
    machine: &mut Machine,
    alloc: Global,
    caller: CallerNo,
    event: Event,
    reply: &mut VtReply,
    bytes: &mut [u8],
) -> u8
    ensures { Answers caller event machine.old
        (places (Some machine.old) reply.old bytes.old) (places (Some machine.new) reply.new bytes.new) result }
{
    if bytes.len() < reply_bytes(&event) {
        return code::NO_ROOM;
    }
    match machine.call(alloc, caller, event) {
        Ok(()) => {
            if let Some(entry) = machine.last() {
                *reply = VtReply::of(&entry.reply);
                put_bytes(&entry.reply, bytes);
            }
            code::OK
        }
        Err(CallError::Full) | Err(CallError::Uncounted) => code::FULL,
        Err(CallError::NoMemory) => code::NO_MEMORY,
    }
}

// Writes the bytes of an answer, if it has any, into the first places.
fn put_bytes(answer: &Reply, bytes: &mut [u8])
    requires { length (text_of_reply answer.now) ≤ length bytes.old }
    ensures { bytes.new ≡ with_items (text_of_reply answer.now) bytes.old }
{
    if let Reply::Text(b) = answer {
        let text = b.as_slice();
        bytes[..text.len()].copy_from_slice(text);
    }
}

/// Empties the journal. The machine goes on.
#[unsafe(no_mangle)]
pub extern "C" fn vt_machine_forget(h: &mut MachineHandle, alloc: Global) -> u8
    ensures nothing { IfNone h.old.value ((result ≡ NOTHING) × (h.new.value ≡ None)) }
    ensures forgotten { IfSome h.old.value (λ m. (result ≡ OK) × (h.new.value ≡ Some (forgotten m))) }
{
    change!(h, alloc, machine => {
        machine.forget();
        code::OK
    })
}
