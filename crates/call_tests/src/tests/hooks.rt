//! Hooks over closures. Expected acts are those that the tables were given.
use super::checks::check;
use sig_hooks::{Act, Handler, Hook, HookTable};
use std::cell::Cell;
use vt_base::Signal;

const RELEASE: Act = Act::Disp { fd: 0, arg: 1 };

const PUT: Act = Act::Put { fd: 3, byte: 65 };

fn set(table: &mut HookTable, n: u16, act: Act) {
    if let Some(s) = Signal::new(n) {
        table.set(s, act);
    }
}

fn is_act(table: &HookTable, n: u16, act: Act) -> bool {
    match Signal::new(n) {
        Some(s) => table.act(s) == act,
        None => false,
    }
}

#[test]
fn a_table_changes_one_signal(rt: HostRuntime) {
    let mut table = HookTable::empty();
    set(&mut table, 10, RELEASE);
    set(&mut table, 64, PUT);
    for n in 1..65 {
        let act = match n {
            10 => RELEASE,
            64 => PUT,
            _ => Act::Nothing,
        };
        check(&rt, is_act(&table, n, act), u32::from(n));
    }
}

// Whether a hook over the handler answers this act, and its table has the same.
fn answers<H: Handler>(handler: H, table: HookTable, s: Signal, act: Act) -> bool
    requires { H.answers handler table }
{
    let hook = Hook::new(handler, table);
    hook.ask(s) == act && hook.table().act(s) == act
}

// Whether a hook over a closure that counts how often it is called answers this act.
fn answers_counted(calls: &Cell<u32>, table: HookTable, s: Signal, act: Act) -> bool {
    answers(
        |s: Signal| {
            calls.set(calls.get().saturating_add(1));
            table.act(s)
        },
        table,
        s,
        act,
    )
}

// Whether each of three hooks answers this act and calls its closure once.
fn is_asked(table: HookTable, n: u16, act: Act) -> bool {
    let Some(s) = Signal::new(n) else {
        return false;
    };
    let calls = Cell::new(0);
    for k in 1..4 {
        if !answers_counted(&calls, table, s, act) || calls.get() != k {
            return false;
        }
    }
    true
}

// A signal, and the act of a table with one act.
const ASKED: &[(u16, Act)] = &[(1, Act::Nothing), (12, Act::Leave), (64, Act::Nothing)];

// No clause states that a hook asks its closure: a body that reads the table in its place is proved too.
#[test]
fn a_hook_asks_its_closure(rt: HostRuntime) {
    let mut table = HookTable::empty();
    set(&mut table, 12, Act::Leave);
    for &(n, act) in ASKED {
        check(&rt, is_asked(table, n, act), u32::from(n));
    }
}
