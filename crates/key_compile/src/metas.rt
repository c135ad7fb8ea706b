//! The entries that `alt_is_meta` sets.
ghost use Rattle.std.specs.Prelude.{◌≡◌, ◌≢◌, ◌<◌, ◌+◌, ◌==◌, ◌&&◌, None, cond};
ghost use Rattle.std.specs.List.{list_any};
ghost use Rattle.key_tables.specs.Tables.{entry_of};
ghost use Rattle.key_compile.specs.Entries.{is_alt, is_ascii_act};
ghost use Rattle.key_compile.specs.Metas.{meta_at, meta_given, meta_of, metas_below};
ghost use Rattle.key_compile.specs.Puts.{Puts};

use crate::entries::put_one;
use crate::fill::is_character_act;
use key_syms::{Action, KEYCODES, kind};
use key_tables::KeyTables;
use key_text::{Line, LineKind};

// The number of tables without Alt below those with it.
const PLAIN_TABLES: u8 = 8;

/// Whether a line is `alt_is_meta`.
pub(crate) fn has_alt_is_meta(lines: &[Line]) -> bool
    ensures { result ≡ list_any (λ l. is_alt l.meaning) lines.now }
{
    for i in 0..lines.len() {
        if is_alt(&lines[i]) {
            return true;
        }
    }
    false
}

fn is_alt(line: &Line) -> bool
    ensures { result ≡ is_alt line.now.meaning }
{
    matches!(&line.kind, LineKind::AltIsMeta)
}

/// Fills the holes of the tables with Alt: each gets the meta of the character below it.
pub(crate) fn put_metas(tables: &mut KeyTables)
    ensures { Puts (metas_below tables.old 8) tables.old tables.new }
{
    for t in 0..PLAIN_TABLES {
        put_metas_of(tables, t);
    }
}

// Fills the holes of the table with Alt above a table.
fn put_metas_of(tables: &mut KeyTables, t: u8)
    requires { t < 8 }
    ensures { Puts (λ u c. cond (u == t + 8) (meta_at tables.old t c) None)
        tables.old tables.new }
{
    for c in 1..KEYCODES {
        put_meta(tables, t, c as u8);
    }
}

fn put_meta(tables: &mut KeyTables, t: u8, c: u8)
    requires below { t < 8 }
    requires key { c ≢ 0 }
    ensures { Puts (λ u d. cond (u == t + 8 && d == c)
        (meta_of (entry_of tables.old t c) (entry_of tables.old (t + 8) c)) None)
        tables.old tables.new }
{
    let below = tables.entry(t, c);
    let above = tables.entry(t + 8, c);
    match meta_of(below, above) {
        Some(meta) => put_one(tables, t + 8, c, meta),
        None => {}
    }
}

// The meta of a character over a hole, if both tables exist.
fn meta_of(below: Option<Action>, above: Option<Action>) -> Option<Action>
    ensures { result ≡ meta_of below above }
{
    let below = below?;
    let above = above?;
    meta_given(below, above)
}

fn meta_given(below: Action, above: Action) -> Option<Action>
    ensures { result ≡ meta_given below above }
{
    if above.kind == kind::HOLE && is_ascii_act(below) {
        return Some(Action {
            kind: kind::META,
            value: below.value,
        });
    }
    None
}

fn is_ascii_act(a: Action) -> bool
    ensures { result ≡ is_ascii_act a }
{
    is_character_act(a) && a.value < 128
}
