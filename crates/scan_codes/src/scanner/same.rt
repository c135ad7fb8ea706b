//! Whether two scanners are the same, and the copy of one into the other.
ghost use Rattle.std.specs.Prelude.{◌≡◌, IsTrue};

use super::{ScanPrefix, Scanner};

impl Scanner {
    /// Whether both scanners are the same. Nothing is proved of the answer `false`.
    pub fn same(&self, other: &Scanner) -> bool
        ensures { IsTrue result → self.now ≡ other.now }
    {
        is_same_prefix(self.kept, other.kept) && are_same_codes(&self.codes, &other.codes)
    }

    /// Becomes the other scanner.
    pub fn copy_from(&mut self, other: &Scanner)
        ensures { self.new ≡ other.now }
    {
        self.kept = other.kept;
        self.codes = other.codes;
    }
}

// Whether both prefixes are the same.
fn is_same_prefix(prefix: ScanPrefix, other: ScanPrefix) -> bool
    ensures { IsTrue result → prefix ≡ other }
{
    match (prefix, other) {
        (ScanPrefix::Nothing, ScanPrefix::Nothing) => true,
        (ScanPrefix::E0, ScanPrefix::E0) => true,
        (ScanPrefix::E1, ScanPrefix::E1) => true,
        (ScanPrefix::E1And(one), ScanPrefix::E1And(two)) => one == two,
        _ => false,
    }
}

// Whether all keycodes are the same.
fn are_same_codes(codes: &[u8], others: &[u8]) -> bool
    ensures { IsTrue result → codes.now ≡ others.now }
{
    codes == others
}
