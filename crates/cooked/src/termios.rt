ghost use Rattle.std.specs.Prelude.{◌≡◌, ◌==◌};
ghost use Rattle.std.specs.List.{list_all, list_any};
ghost use Rattle.cooked.specs.Kinds.{kind_of};
ghost use Rattle.cooked.specs.Termios.{all_differ, mapped_byte, is_control, is_valid, may_be_named, named_bytes, usual};

use crate::kind::Kind;

/// Settings of a line discipline, by their names in termios(3).
#[derive(Clone, Copy, Debug, PartialEq, Eq)]
pub struct Termios {
    /// ICANON: whether lines are edited and delivered whole.
    pub icanon: bool,
    pub echo: bool,
    /// ISIG: whether VINTR and VQUIT send signals.
    pub isig: bool,
    /// Whether 0D is read as 0A.
    pub icrnl: bool,
    /// Whether 0A is echoed as 0D 0A.
    pub onlcr: bool,
    /// VINTR: SIGINT.
    pub intr: u8,
    /// VQUIT: SIGQUIT.
    pub quit: u8,
    /// VERASE: drops the last character.
    pub erase: u8,
    /// VKILL: drops the line.
    pub kill: u8,
    /// VEOF: delivers the kept bytes without 0A.
    pub eof: u8,
}

impl Termios {
    /// The usual settings of a terminal.
    pub fn usual() -> Termios
        ensures { result ≡ usual }
    {
        Termios {
            icanon: true,
            echo: true,
            isig: true,
            icrnl: true,
            onlcr: true,
            intr: 0x03,
            quit: 0x1C,
            erase: 0x7F,
            kill: 0x15,
            eof: 0x04,
        }
    }

    /// Whether the five bytes are distinct control characters, none of which ends a line.
    pub fn valid(&self) -> bool
        ensures { result ≡ is_valid self.now }
    {
        self.may_all_be_named() && self.all_differ()
    }

    fn may_all_be_named(&self) -> bool
        ensures { result ≡ list_all may_be_named (named_bytes self.now) }
    {
        may_be_named(self.intr)
            && may_be_named(self.quit)
            && may_be_named(self.erase)
            && may_be_named(self.kill)
            && may_be_named(self.eof)
    }

    fn all_differ(&self) -> bool
        ensures { result ≡ all_differ (named_bytes self.now) }
    {
        let intr = is_among(self.intr, &[self.quit, self.erase, self.kill, self.eof]);
        let quit = is_among(self.quit, &[self.erase, self.kill, self.eof]);
        let erase = is_among(self.erase, &[self.kill, self.eof]);
        let kill = is_among(self.kill, &[self.eof]);
        !intr && !quit && !erase && !kill
    }

    /// The byte that a byte counts as.
    pub(crate) fn heard(&self, b: u8) -> u8
        ensures { result ≡ mapped_byte self.now b }
    {
        if self.icrnl && b == 0x0D { 0x0A } else { b }
    }

    /// The kind of a byte that counts as `b`.
    pub(crate) fn kind_of(&self, b: u8) -> Kind
        ensures { result ≡ kind_of self.now b }
    {
        if self.isig && b == self.intr {
            Kind::Interrupt
        } else if self.isig && b == self.quit {
            Kind::Quit
        } else if !self.icanon {
            Kind::Data
        } else if b == self.kill {
            Kind::Kill
        } else if b == self.erase {
            Kind::Erase
        } else if b == self.eof {
            Kind::Eof
        } else if b == 0x0A {
            Kind::End
        } else {
            Kind::Data
        }
    }
}

/// Whether the byte is shown as `^` and a sign.
pub(crate) fn is_control(b: u8) -> bool
    ensures { result ≡ is_control b }
{
    b < 0x20 || b == 0x7F
}

fn is_among(b: u8, others: &[u8]) -> bool
    ensures { result ≡ list_any (λ c. c == b) others.now }
{
    others.iter().any(|c| *c == b)
}

fn may_be_named(b: u8) -> bool
    ensures { result ≡ may_be_named b }
{
    is_control(b) && b != 0x0A && b != 0x0D
}
