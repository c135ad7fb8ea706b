//! Whether the keyboards of two machines are the same, and the copy of one machine's into the other.
ghost use Rattle.std.specs.Prelude.{◌≡◌, IsTrue, length};

use crate::keyboard_set::KeyboardSet;
use scan_codes::Scanner;

impl KeyboardSet {
    /// Whether both are the same, except for the tables. Nothing is proved of the answer `false`.
    pub(crate) fn same_keys(&self, other: &KeyboardSet) -> bool
        ensures { IsTrue result → self.now ≡ record other.now { tables = self.now.tables } }
    {
        self.keyboard.same(&other.keyboard) && are_same_scanners(&self.scanners, &other.scanners)
    }

    /// Becomes the other, except the tables.
    pub(crate) fn copy_keys_from(&mut self, other: &KeyboardSet)
        ensures { self.new ≡ record other.now { tables = self.old.tables } }
    {
        copy_scanners(&mut self.scanners, &other.scanners);
        self.keyboard.copy_from(&other.keyboard);
    }
}

// Whether all scanners are the same.
fn are_same_scanners(scanners: &[Scanner], others: &[Scanner]) -> bool
    requires { length scanners.now ≡ length others.now }
    ensures { IsTrue result → scanners.now ≡ others.now }
{
    for i in 0..scanners.len() {
        if !scanners[i].same(&others[i]) {
            return false;
        }
    }
    true
}

// All scanners become the others.
fn copy_scanners(scanners: &mut [Scanner], others: &[Scanner])
    requires { length scanners.old ≡ length others.now }
    ensures { scanners.new ≡ others.now }
{
    for i in 0..others.len() {
        scanners[i].copy_from(&others[i]);
    }
}
