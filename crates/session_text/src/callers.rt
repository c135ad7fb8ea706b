//! The program of each caller.
ghost use Rattle.std.specs.Prelude.{◌≡◌, filter, option_map, slice_get};
ghost use Rattle.session_text.specs.Programs.{is_keys, program_of, script_in};

use crate::Program;
use vt_base::CallerNo;

/// The program of caller `p` among those of a session, if it has one.
pub fn program_of(programs: &[Program], p: CallerNo) -> Option<&Program>
    ensures { option_map (λ program. program.now) result ≡ program_of programs.now p }
{
    match p.keyboard_no() {
        Some(k) => keys_at(programs, k),
        None => script_at(programs, usize::from(p.get())),
    }
}

// The program at a place, if it is a script.
fn script_at(programs: &[Program], place: usize) -> Option<&Program>
    ensures { option_map (λ program. program.now) result ≡ script_in (slice_get programs.now place) }
{
    let program = programs.get(place)?;
    if is_keys(program) {
        return None;
    }
    Some(program)
}

// The program of keyboard k.
fn keys_at(programs: &[Program], k: u8) -> Option<&Program>
    ensures { option_map (λ program. program.now) result
        ≡ slice_get (filter is_keys programs.now) k }
{
    let mut left = k;
    for program in programs {
        if is_keys(program) {
            if left == 0 {
                return Some(program);
            }
            left -= 1;
        }
    }
    None
}

fn is_keys(program: &Program) -> bool
    ensures { result ≡ is_keys program.now }
{
    matches!(program, Program::Keys(_))
}
