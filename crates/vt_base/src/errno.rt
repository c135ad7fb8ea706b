ghost use Rattle.std.specs.Prelude.{◌≡◌, ◌≢◌, IfSome, IfNone, Some};
ghost use Rattle.vt_base.specs.Errno.{number_of, text_of};
ghost use Rattle.vt_base.specs.declared.errno.Errno.{Errno};

use std::error::Error;
use std::fmt;

/// Why a call is refused. The numbers are those of Linux (errno(3)).
#[derive(Clone, Copy, Debug, PartialEq, Eq)]
pub enum Errno {
    /// ESRCH: no such process.
    Srch,
    /// EINTR: a signal came.
    Intr,
    /// ENXIO: no such console.
    Nxio,
    /// EBADF: the descriptor isn't open.
    Badf,
    /// EAGAIN: there is nothing to take.
    Again,
    /// EBUSY: in use.
    Busy,
    /// EINVAL: a bad value or state.
    Inval,
    /// ENOTTY: the caller can't make such a call.
    Notty,
    /// EPERM: no permission.
    Perm,
}

impl Errno {
    /// The error that has this number.
    pub fn of(n: u16) -> Option<Errno>
        ensures found { IfSome result (λ e. number_of e ≡ n) }
        ensures none { IfNone result ((e : Errno) → number_of e ≢ n) }
    {
        match n {
            1 => Some(Errno::Perm),
            3 => Some(Errno::Srch),
            4 => Some(Errno::Intr),
            6 => Some(Errno::Nxio),
            9 => Some(Errno::Badf),
            11 => Some(Errno::Again),
            16 => Some(Errno::Busy),
            22 => Some(Errno::Inval),
            25 => Some(Errno::Notty),
            _ => None,
        }
    }

    /// Its number in Linux.
    pub fn number(self) -> u16
        ensures { result ≡ number_of self }
    {
        match self {
            Errno::Srch => 3,
            Errno::Intr => 4,
            Errno::Nxio => 6,
            Errno::Badf => 9,
            Errno::Again => 11,
            Errno::Busy => 16,
            Errno::Inval => 22,
            Errno::Notty => 25,
            Errno::Perm => 1,
        }
    }
}

/// The texts of errno(3).
impl fmt::Display for Errno {
    ghost output = { λ e. Some (text_of e) };

    fn fmt<W: fmt::Write>(&self, f: &mut fmt::Formatter<W>) -> fmt::Result {
        match self {
            Errno::Srch => f.write_str("No such process"),
            Errno::Intr => f.write_str("Interrupted system call"),
            Errno::Nxio => f.write_str("No such device or address"),
            Errno::Badf => f.write_str("Bad file descriptor"),
            Errno::Again => f.write_str("Resource temporarily unavailable"),
            Errno::Busy => f.write_str("Device or resource busy"),
            Errno::Inval => f.write_str("Invalid argument"),
            Errno::Notty => f.write_str("Inappropriate ioctl for device"),
            Errno::Perm => f.write_str("Operation not permitted"),
        }
    }
}

impl Error for Errno {}
