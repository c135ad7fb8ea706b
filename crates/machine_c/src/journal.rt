//! The text of the journal, as a whole and by its lines.
ghost use Rattle.std.specs.Prelude.{◌≡◌, ◌≤◌, IfNone, IfSome, Some, length, slice_get};
ghost use Rattle.c_calls.specs.Codes.{NOTHING, RANGE};
ghost use Rattle.c_calls.specs.Text.{HandsOver};
ghost use Rattle.machine.specs.History.{world_of};
ghost use Rattle.machine.specs.MachineState.{IsContinued, text_of};
ghost use Rattle.machine_c.specs.Loans.{IsSameLoan};
ghost use Rattle.vt_events.specs.declared.entry.Entry.{Entry};
ghost use Rattle.vt_journal.specs.Journal.{entry_words, line_text};
ghost use Rattle.vt_world.specs.History.{IsLegal};

use crate::loan::MachineLoan;
use c_calls::{code, hand_over, read};
use machine::Machine;
use std::alloc::Global;
use vt_base::Bytes;
use vt_events::Entry;
use vt_journal::print_entry;

/// The version of journals.
const VERSION: u8 = 2;

/// The text of the journal in version 2. If no entry is gone, it is a legal history of the machine from its start.
#[unsafe(no_mangle)]
pub extern "C" fn vt_lent_machine_journal(
    loan: &mut MachineLoan,
    text: &mut [u8],
    count: &mut usize,
    alloc: Global,
) -> u8
    ensures same { IsSameLoan loan.old loan.new }
    ensures nothing { IfNone loan.old.value ((result ≡ NOTHING) × (text.new ≡ text.old) × (count.new ≡ count.old)) }
    ensures text { IfSome loan.old.value (λ m. HandsOver (text_of m) text.old text.new count.old count.new result) }
    ensures legal { IfSome loan.old.value (λ m. m.gone ≡ 0 → IsLegal (world_of m.start) m.log.entries) }
    ensures continued { IfSome loan.old.value IsContinued }
{
    let lent = loan.take();
    let answer = match lent.get() {
        None => code::NOTHING,
        Some(machine) => journal(machine, alloc, text, count),
    };
    loan.put(lent);
    answer
}

/// The line of the journal's entry at this place, counted from 0, in version 2.
#[unsafe(no_mangle)]
pub extern "C" fn vt_lent_machine_entry(
    loan: &mut MachineLoan,
    index: u32,
    text: &mut [u8],
    count: &mut usize,
    alloc: Global,
) -> u8
    ensures same { IsSameLoan loan.old loan.new }
    ensures nothing { IfNone loan.old.value ((result ≡ NOTHING) × (text.new ≡ text.old) × (count.new ≡ count.old)) }
    ensures range { IfSome loan.old.value (λ m. length m.log.entries ≤ index
        → (result ≡ RANGE) × (text.new ≡ text.old) × (count.new ≡ count.old)) }
    ensures text { IfSome loan.old.value (λ m. (entry : Entry) → slice_get m.log.entries index ≡ Some entry
        → HandsOver (line_text (entry_words 2 entry)) text.old text.new count.old count.new result) }
{
    read!(loan, machine => entry_at(machine, alloc, index, text, count))
}

fn journal(machine: &Machine, alloc: Global, text: &mut [u8], count: &mut usize) -> u8
    ensures text { HandsOver (text_of machine.now) text.old text.new count.old count.new result }
    ensures legal { machine.now.gone ≡ 0 → IsLegal (world_of machine.now.start) machine.now.log.entries }
    ensures continued { IsContinued machine.now }
{
    machine.stays_legal();
    let mut all = Bytes::new(alloc);
    match machine.journal(alloc, &mut all) {
        Ok(()) => hand_over(all.as_slice(), text, count),
        Err(_) => code::NO_MEMORY,
    }
}

fn entry_at(machine: &Machine, alloc: Global, index: u32, text: &mut [u8], count: &mut usize) -> u8
    ensures range { length machine.now.log.entries ≤ index
        → (result ≡ RANGE) × (text.new ≡ text.old) × (count.new ≡ count.old) }
    ensures text { (entry : Entry) → slice_get machine.now.log.entries index ≡ Some entry
        → HandsOver (line_text (entry_words 2 entry)) text.old text.new count.old count.new result }
{
    match machine.log().entries().get(index as usize) {
        None => code::RANGE,
        Some(entry) => line_of(entry, alloc, text, count),
    }
}

fn line_of(entry: &Entry, alloc: Global, text: &mut [u8], count: &mut usize) -> u8
    ensures { HandsOver (line_text (entry_words 2 entry.now)) text.old text.new count.old count.new result }
{
    let mut line = Bytes::new(alloc);
    match print_entry(alloc, entry, VERSION, &mut line) {
        Ok(()) => hand_over(line.as_slice(), text, count),
        Err(_) => code::NO_MEMORY,
    }
}
