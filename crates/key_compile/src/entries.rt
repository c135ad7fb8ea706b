//! The entries that lines set.
ghost use Rattle.std.specs.Prelude.{◌≡◌, ◌≢◌, ◌==◌, ◌&&◌, Some, None, cond};
ghost use Rattle.key_compile.specs.Entries.{by_symbols, last_action, everywhere, gives, action_of_table};
ghost use Rattle.key_compile.specs.Puts.{Puts};

use crate::fill::filled_action;
use key_syms::Action;
use key_tables::KeyTables;
use key_text::{Line, LineKind};

/// Sets the entries that the lines give, one line after another.
pub(crate) fn put_lines(tables: &mut KeyTables, union: &[u8], lines: &[Line])
    ensures { Puts (last_action union.now lines.now) tables.old tables.new }
{
    for i in 0..lines.len() {
        put_line(tables, union, &lines[i]);
    }
}

// Sets the entries that a line gives.
fn put_line(tables: &mut KeyTables, union: &[u8], line: &Line)
    ensures { Puts (gives union.now line.now.meaning) tables.old tables.new }
{
    match &line.kind {
        LineKind::Keys { code, syms } => put_symbols(tables, union, *code, syms.as_slice()),
        LineKind::One {
            table,
            code,
            action,
        } => put_one(tables, *table, *code, *action),
        _ => {}
    }
}

/// Sets an entry, if its table exists.
#[tactic(auto, using(crate::proofs::Steps::puts_one))]
pub(crate) fn put_one(tables: &mut KeyTables, table: u8, code: u8, action: Action)
    requires { code ≢ 0 }
    ensures { Puts (λ t c. cond (t == table && c == code) (Some action) None)
        tables.old tables.new }
{
    tables.set_entry(table, code, action);
}

// Sets the symbols of a key line: one symbol in all tables of the union, several in the first of them.
fn put_symbols(tables: &mut KeyTables, union: &[u8], code: u8, actions: &[Action])
    requires { code ≢ 0 }
    ensures { Puts (λ t c. cond (c == code) (by_symbols union.now actions.now t) None)
        tables.old tables.new }
{
    if actions.len() == 1 {
        put_everywhere(tables, union, code, actions[0]);
    } else {
        put_paired(tables, union, code, actions);
    }
}

fn put_everywhere(tables: &mut KeyTables, union: &[u8], code: u8, action: Action)
    requires { code ≢ 0 }
    ensures { Puts (λ t c. cond (c == code) (everywhere union.now action t) None)
        tables.old tables.new }
{
    for i in 0..union.len() {
        let table = union[i];
        put_one(tables, table, code, filled_action(table, action));
    }
}

fn put_paired(tables: &mut KeyTables, union: &[u8], code: u8, actions: &[Action])
    requires { code ≢ 0 }
    ensures { Puts (λ t c. cond (c == code) (action_of_table union.now actions.now t) None)
        tables.old tables.new }
{
    for i in 0..union.len().min(actions.len()) {
        put_one(tables, union[i], code, actions[i]);
    }
}
