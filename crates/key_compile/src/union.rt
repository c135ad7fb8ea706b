//! The tables that the lines declare.
ghost use Rattle.std.specs.Prelude.{◌≡◌, ℕ, ◌<◌, ◌||◌, false, length, slice_index_or, IfOk, replicate};
ghost use Rattle.std.specs.List.{list_any};
ghost use Rattle.key_compile.specs.Union.{IsSetOf, in_union, is_declared, is_keymaps, is_usual_table, modifies_table, names_table, passing_below};

use key_syms::TABLE_COUNT;
use key_text::{Line, LineKind};
use std::alloc::{AllocError, Global};

/// For each table whether it is in the union.
#[tactic(auto, unfolding(crate::specs::Union::in_union))]
pub(crate) fn union_marks(alloc: Global, lines: &[Line]) -> Result<Vec<bool>, AllocError>
    ensures { IfOk result (λ marks. IsSetOf marks.items (in_union lines.now)) }
{
    if has_keymaps(lines) {
        return named_tables(alloc, lines);
    }
    usual_tables(alloc)
}

fn has_keymaps(lines: &[Line]) -> bool
    ensures { result ≡ list_any (λ l. is_keymaps l.meaning) lines.now }
{
    for i in 0..lines.len() {
        if is_keymaps(&lines[i]) {
            return true;
        }
    }
    false
}

fn is_keymaps(line: &Line) -> bool
    ensures { result ≡ is_keymaps line.now.meaning }
{
    matches!(&line.kind, LineKind::Keymaps(_))
}

// For each table whether a line `keymaps` has it.
fn named_tables(alloc: Global, lines: &[Line]) -> Result<Vec<bool>, AllocError>
    ensures { IfOk result (λ marks. IsSetOf marks.items
        (λ t. list_any (λ l. names_table t l.meaning) lines.now)) }
{
    let mut marks = no_marks(alloc)?;
    for i in 0..lines.len() {
        mark_named(&mut marks, &lines[i]);
    }
    Ok(marks)
}

fn no_marks(alloc: Global) -> Result<Vec<bool>, AllocError>
    ensures { IfOk result (λ marks. marks.items ≡ replicate 256 false) }
{
    let mut marks = Vec::new(alloc);
    marks.resize(TABLE_COUNT, false)?;
    Ok(marks)
}

// Marks the tables that a line `keymaps` has.
fn mark_named(marks: &mut Vec<bool>, line: &Line)
    requires { length marks.old.items ≡ 256 }
    ensures full { length marks.new.items ≡ 256 }
    ensures each { (t : ℕ) → t < 256 → slice_index_or marks.new.items t false
        ≡ (slice_index_or marks.old.items t false || names_table t line.now.meaning) }
{
    for t in 0..TABLE_COUNT {
        if names_table(t as u8, line) {
            marks[t] = true;
        }
    }
}

fn names_table(t: u8, line: &Line) -> bool
    ensures { result ≡ names_table t line.now.meaning }
{
    match &line.kind {
        LineKind::Keymaps(tables) => tables.has(t),
        _ => false,
    }
}

fn usual_tables(alloc: Global) -> Result<Vec<bool>, AllocError>
    ensures { IfOk result (λ marks. IsSetOf marks.items is_usual_table) }
{
    let mut marks = Vec::new(alloc);
    for t in 0..TABLE_COUNT {
        marks.push(is_usual_table(t))?;
    }
    Ok(marks)
}

fn is_usual_table(t: usize) -> bool
    ensures { result ≡ is_usual_table t }
{
    t <= 2 || t == 4 || t == 5 || t == 8 || t == 12
}

/// For each table whether it is declared. `union` holds for each table whether it is in the union.
#[tactic(auto, unfolding(crate::specs::Union::is_declared))]
pub(crate) fn declared_marks(
    alloc: Global,
    lines: &[Line],
    union: &[bool],
) -> Result<Vec<bool>, AllocError>
    requires { IsSetOf union.now (in_union lines.now) }
    ensures { IfOk result (λ marks. IsSetOf marks.items (is_declared lines.now)) }
{
    let mut marks = Vec::from_slice(alloc, union)?;
    for i in 0..lines.len() {
        mark_modified(&mut marks, &lines[i]);
    }
    Ok(marks)
}

// Marks the table of a line with modifier words.
fn mark_modified(marks: &mut Vec<bool>, line: &Line)
    requires { length marks.old.items ≡ 256 }
    ensures full { length marks.new.items ≡ 256 }
    ensures each { (t : ℕ) → t < 256 → slice_index_or marks.new.items t false
        ≡ (slice_index_or marks.old.items t false || modifies_table t line.now.meaning) }
{
    match &line.kind {
        LineKind::One { table, .. } => marks[usize::from(*table)] = true,
        _ => {}
    }
}

/// The tables that are marked, in rising order.
pub(crate) fn marked_tables(alloc: Global, marks: &[bool]) -> Result<Vec<u8>, AllocError>
    requires { length marks.now ≡ 256 }
    ensures { IfOk result (λ tables. tables.items
        ≡ passing_below (λ t. slice_index_or marks.now t false) 256) }
{
    let mut tables = Vec::new(alloc);
    for t in 0..TABLE_COUNT {
        if !marks[t] {
            continue;
        }
        tables.push(t as u8)?;
    }
    Ok(tables)
}
