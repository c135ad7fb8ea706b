//! The strings of the function keys.
ghost use Rattle.std.specs.Prelude.{◌≡◌, ◌<◌, ◌≤◌, ◌==◌, [], None, Some, cond, length, not, slice_index_or};
ghost use Rattle.std.specs.List.{prefix_len};
ghost use Rattle.key_compile.specs.Puts.{PutsTexts};
ghost use Rattle.key_compile.specs.Strings.{last_text, some_text, text_by, usual_string};

use crate::usual::{USUAL_STRING_COUNT, USUAL_STRINGS};
use key_tables::KeyTables;
use key_text::{Line, LineKind};

/// Sets the strings of the lines, one line after another.
pub(crate) fn put_strings(tables: &mut KeyTables, lines: &[Line])
    ensures { PutsTexts (last_text lines.now) tables.old tables.new }
{
    for i in 0..lines.len() {
        put_text(tables, &lines[i]);
    }
}

fn put_text(tables: &mut KeyTables, line: &Line)
    ensures { PutsTexts (text_by line.now.meaning) tables.old tables.new }
{
    match &line.kind {
        LineKind::Text { func, text } => put_string(tables, *func, text.as_slice()),
        LineKind::UsualStrings => put_usual_strings(tables),
        _ => {}
    }
}

fn put_string(tables: &mut KeyTables, func: u8, text: &[u8])
    requires { length text.now ≤ 255 }
    ensures { PutsTexts (λ i. cond (i == func) (Some text.now) None) tables.old tables.new }
{
    tables.set_func(func, text);
}

fn put_usual_strings(tables: &mut KeyTables)
    ensures { PutsTexts usual_string tables.old tables.new }
{
    for i in 0..USUAL_STRING_COUNT {
        put_usual_string(tables, i);
    }
}

fn put_usual_string(tables: &mut KeyTables, i: usize)
    requires { i < USUAL_STRING_COUNT }
    ensures { PutsTexts (λ j. cond (j == i) (usual_string i) None) tables.old tables.new }
{
    let text = usual_text(i);
    if text.is_empty() {
        return;
    }
    put_string(tables, i as u8, text);
}

// The usual string of a function key, or no bytes.
#[tactic(auto, using(crate::proofs::Texts::usual_row))]
fn usual_text(i: usize) -> &'static [u8]
    requires { i < USUAL_STRING_COUNT }
    ensures value { some_text result.now ≡ usual_string i }
    ensures short { length result.now ≤ 255 }
{
    let row = &USUAL_STRINGS[i];
    &row[..len_of(row)]
}

// The number of bytes before the first 0.
fn len_of(row: &[u8]) -> usize
    ensures value { result ≡ prefix_len (λ b. not (b == 0)) row.now }
    ensures within { result ≤ length row.now }
{
    for i in 0..row.len() {
        if row[i] == 0 {
            return i;
        }
    }
    row.len()
}
