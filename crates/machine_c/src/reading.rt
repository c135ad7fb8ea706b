//! Reads the display, a console, and the wait of a caller.
ghost use Rattle.std.specs.Prelude.{◌≡◌, ◌<◌, ◌≤◌, ◌⊎◌, IfNone, IfSome, MatchOption, None, Some};
ghost use Rattle.c_calls.specs.Codes.{NOTHING, OK, RANGE};
ghost use Rattle.machine_c.specs.Loans.{IsSameLoan};
ghost use Rattle.machine_c.specs.Shown.{c_console, c_display, c_wait, console_at};
ghost use Rattle.vt_procs.specs.Callers.{caller_at};

use crate::loan::MachineLoan;
use crate::numbers::{caller_of, console_of};
use crate::vt_console::VtConsole;
use crate::vt_display::VtDisplay;
use c_calls::{code, read};
use machine::Machine;
use vt_procs::Waiting;

/// The display and the journal's numbers.
#[unsafe(no_mangle)]
pub extern "C" fn vt_lent_machine_display(loan: &mut MachineLoan, display: &mut VtDisplay) -> u8
    ensures same { IsSameLoan loan.old loan.new }
    ensures nothing { IfNone loan.old.value ((result ≡ NOTHING) × (display.new ≡ display.old)) }
    ensures display { IfSome loan.old.value (λ m. (result ≡ OK) × (display.new ≡ c_display m)) }
{
    read!(loan, machine => {
        *display = VtDisplay::of(machine);
        code::OK
    })
}

/// A console, if it is allocated.
#[unsafe(no_mangle)]
pub extern "C" fn vt_lent_machine_console(
    loan: &mut MachineLoan,
    n: u32,
    console: &mut VtConsole,
) -> u8
    ensures same { IsSameLoan loan.old loan.new }
    ensures nothing { IfNone loan.old.value ((result ≡ NOTHING) × (console.new ≡ console.old)) }
    ensures console { IfSome loan.old.value (λ m. MatchOption (console_at m.world n)
        ((result ≡ RANGE) × (console.new ≡ console.old))
        (λ t. (result ≡ OK) × (console.new ≡ c_console m.world n t))) }
{
    read!(loan, machine => read_console(machine, n, console))
}

/// The state of a caller's wait: 0 none, 1 open, 2 it ended with success, 3 it was broken.
#[unsafe(no_mangle)]
pub extern "C" fn vt_lent_machine_wait(loan: &mut MachineLoan, caller: u32, wait: &mut u8) -> u8
    ensures same { IsSameLoan loan.old loan.new }
    ensures nothing { IfNone loan.old.value ((result ≡ NOTHING) × (wait.new ≡ wait.old)) }
    ensures wait { IfSome loan.old.value (λ m.
        ((result ≡ OK) × (caller < 68) × (wait.new ≡ c_wait (caller_at m.world.callers caller).waiting))
        ⊎ ((result ≡ RANGE) × (68 ≤ caller) × (wait.new ≡ wait.old))) }
{
    read!(loan, machine => read_wait(machine, caller, wait))
}

fn read_console(machine: &Machine, n: u32, console: &mut VtConsole) -> u8
    ensures { MatchOption (console_at machine.now.world n)
        ((result ≡ RANGE) × (console.new ≡ console.old))
        (λ t. (result ≡ OK) × (console.new ≡ c_console machine.now.world n t)) }
{
    match find_console(machine, n) {
        Some(found) => {
            *console = found;
            code::OK
        }
        None => code::RANGE,
    }
}

// The console of this number, if there is one and it is allocated.
fn find_console(machine: &Machine, n: u32) -> Option<VtConsole>
    ensures { MatchOption (console_at machine.now.world n) (result ≡ None)
        (λ t. result ≡ Some (c_console machine.now.world n t)) }
{
    let c = console_of(n)?;
    VtConsole::of(machine.world(), c)
}

fn read_wait(machine: &Machine, caller: u32, wait: &mut u8) -> u8
    ensures { ((result ≡ OK) × (caller < 68)
        × (wait.new ≡ c_wait (caller_at machine.now.world.callers caller).waiting))
        ⊎ ((result ≡ RANGE) × (68 ≤ caller) × (wait.new ≡ wait.old)) }
{
    match caller_of(caller) {
        Some(p) => {
            *wait = number_of(machine.world().wait_of(p));
            code::OK
        }
        None => code::RANGE,
    }
}

fn number_of(waiting: Waiting) -> u8
    ensures { result ≡ c_wait waiting }
{
    match waiting {
        Waiting::Nothing => 0,
        Waiting::Open(_) => 1,
        Waiting::Done => 2,
        Waiting::Broken => 3,
    }
}
