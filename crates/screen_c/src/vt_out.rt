ghost use Rattle.std.specs.Prelude.{◌≡◌, ◌≤◌, ◌-◌, ◌++◌, length, replicate};
ghost use Rattle.screen_c.specs.Shown.{c_out, plain_out};

use vt_screen::Out;

/// The most bytes of a report.
const REPORT_BYTES: usize = 16;

/// `struct vt_out`: a report, a bell or a request of a text.
#[repr(C)]
#[derive(Clone, Copy, Debug, Drop, PartialEq)]
pub struct VtOut {
    /// The kind: 1 a report, 2 a console to bring to the front, 3 the previous one, 4 lights, 5 a bell.
    pub kind: u8,
    /// How many bytes the report has.
    pub length: u8,
    /// The console's number, or the lights.
    pub number: u16,
    /// The report, and then zeros.
    pub text: [u8; 16],
    /// 0.
    pub spare: [u32; 3],
}

impl VtOut {
    pub(crate) fn of(out: &Out) -> VtOut
        ensures { result ≡ c_out out.now }
    {
        match out {
            Out::Report(text) => VtOut::report(text.as_slice()),
            Out::SwitchTo(n) => VtOut::plain(2, *n),
            Out::SwitchLast => VtOut::plain(3, 0),
            Out::Lights(n) => VtOut::plain(4, *n),
            Out::Bell => VtOut::plain(5, 0),
        }
    }

    fn report(text: &[u8]) -> VtOut
        requires { length text.now ≤ 16 }
        ensures kind { result.kind ≡ 1 }
        ensures number { result.number ≡ 0 }
        ensures length { result.length ≡ length text.now }
        ensures text { result.text ≡ text.now ++ replicate (16 - length text.now) 0 }
        ensures spare { result.spare ≡ replicate 3 0 }
    {
        let mut bytes = [0; REPORT_BYTES];
        bytes[..text.len()].copy_from_slice(text);
        VtOut {
            kind: 1,
            length: text.len() as u8,
            number: 0,
            text: bytes,
            spare: [0; 3],
        }
    }

    fn plain(kind: u8, number: u8) -> VtOut
        ensures { result ≡ plain_out kind number }
    {
        VtOut {
            kind,
            length: 0,
            number: u16::from(number),
            text: [0; REPORT_BYTES],
            spare: [0; 3],
        }
    }
}
