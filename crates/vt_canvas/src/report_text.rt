ghost use Rattle.std.specs.Prelude.{◌≡◌, ◌≤◌, ◌+◌, ◌++◌, decimal, length};

use itoa::Buffer;
use vt_base::ShortList;

/// The bytes of a report, of which there are at most 16.
pub type ReportText = ShortList<u8, 16>;

/// Adds a number in decimal digits, of which there are at most three.
pub(crate) fn push_decimal(text: &mut ReportText, n: u8)
    requires { length text.old ≤ 13 }
    ensures text { text.new ≡ text.old ++ decimal n }
    ensures short { length text.new ≤ length text.old + 3 }
{
    let mut buffer = Buffer::new();
    text.extend(buffer.format(n).as_bytes());
}
