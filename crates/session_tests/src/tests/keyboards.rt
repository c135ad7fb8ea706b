//! A race of two keyboards is judged legal, in whatever order their threads ran.
use super::printed::{race_text, run_text};
use std::alloc::Global;
use std::test::Fail;
use vt_base::NoMemory;
use vt_io::OpenGate;

// k1 holds Shift down, before, while or after k0 types.
const SESSION: &str = "rows = 1
cols = 3
keys = '1e 9e'
more_keys = ['2a']
turns = [65, 0, 0]
keymap = '''
keymaps 0-1,4
keycode 30 = a
keycode 42 = Shift
'''
";

// The session, and the journal before the consoles.
fn with_journal(alloc: Global, text: &str) -> Result<String, NoMemory> {
    match text.split_once("%display") {
        Some((journal, _)) => Ok(format!(in alloc; "{SESSION}{journal}")?),
        None => Ok(String::from_str(alloc, SESSION)?),
    }
}

fn both_in(alloc: Global, printed: &[u8]) -> Result<String, NoMemory> {
    match str::from_utf8(printed) {
        Ok(text) => with_journal(alloc, text),
        Err(_) => Ok(String::from_str(alloc, SESSION)?),
    }
}

#[test]
fn a_race_of_two_keyboards_is_legal(rt: HostRuntime) -> Result<(), Fail> {
    let raced = race_text(&rt, rt.alloc(), SESSION.as_bytes(), &OpenGate)?;
    assert_eq!(rt; raced.status, 0);
    let both = both_in(rt.alloc(), raced.out.held())?;
    let judged = run_text(&rt, rt.alloc(), "check", both.as_bytes(), &OpenGate)?;
    assert!(rt; judged.out.held() == b"legal 5\n".as_slice(), "{both}");
    Ok(())
}
