ghost use Rattle.std.specs.Prelude.{◌≡◌, ◌<◌, ◌≤◌, [], ◌∷◌, ◌++◌, ◌&&◌, true, length, IfOk, if◌then◌else◌};
ghost use Rattle.std.specs.Bool.{OnFalse, OnTrue};
ghost use Rattle.cooked.specs.Cooked.{ends_open, ended_line, make_typing};
ghost use Rattle.cooked.specs.Echo.{echo_by, echo_of};
ghost use Rattle.cooked.specs.Fresh.{fresh, is_full};
ghost use Rattle.cooked.specs.Given.{items_after, items_of, line_in};
ghost use Rattle.cooked.specs.KeptText.{kept_characters, kept_bytes, last_of};
ghost use Rattle.cooked.specs.Kinds.{kind};
ghost use Rattle.cooked.specs.Termios.{IsValid, mapped_byte};
ghost use Rattle.vt_chars.specs.Characters.{is_part};
ghost use Rattle.cooked.specs.declared.given.Given.TheVariants.{Nothing, Line, Byte};
ghost use Rattle.cooked.specs.declared.kind.Kind.TheVariants.{Erase, Data};

use crate::echo::{BELL, caret, columns_of, data_echo, erase_echo, newline, single};
use crate::echo_bytes::EchoBytes;
use crate::given::Given;
use crate::kept_text::{KeptText, LINE_BYTES};
use crate::kind::Kind;
use crate::termios::Termios;
use std::alloc::Global;
use std::marker::Model;
use vt_base::{Bytes, NoMemory, Signal};

/// How many bytes may be fresh.
const MOST_FRESH: usize = 4_095;

/// A line discipline: typed bytes become lines, signals and an echo. Contracts see the settings, the
/// bytes that are fresh, and the line that was delivered last.
#[derive(Drop)]
pub struct Cooked {
    termios: Termios,
    fresh: Bytes,
    kept: KeptText,
    line: Bytes,
}

impl Model for Cooked {
    ghost use Rattle.cooked.specs.Cooked.{Stands, Typing, make_typing};

    ghost Value = { Typing };

    ghost view = { λ c. make_typing c.termios c.fresh.bytes c.line.bytes };

    ghost invariant = { λ c. Stands c.termios c.fresh c.kept c.line };
}

impl Cooked {
    /// A line discipline without input. All its memory is taken here.
    pub fn start(alloc: Global, t: Termios) -> Result<Cooked, NoMemory>
        requires { IsValid t }
        ensures { IfOk result (λ c. c ≡ make_typing t [] []) }
    {
        let fresh = Bytes::with_room(alloc, MOST_FRESH)?;
        let kept = KeptText::new(alloc)?;
        let line = Bytes::with_room(alloc, LINE_BYTES)?;
        Ok(Cooked {
            termios: t,
            fresh,
            kept,
            line,
        })
    }

    /// Takes a typed byte, and puts its echo into `echo`.
    pub fn push(&mut self, b: u8, echo: &mut EchoBytes) -> Given
        requires { echo.old ≡ [] }
        ensures termios { self.new.termios ≡ self.old.termios }
        ensures fresh { self.new.fresh ≡ fresh self.old.termios (self.old.fresh ++ b ∷ []) }
        ensures given { items_of result self.new.line ≡ items_after self.old.termios self.old.fresh b }
        ensures line { self.new.line ≡ line_in (items_after self.old.termios self.old.fresh b) }
        ensures echo { echo.new ≡ echo_of self.old.termios self.old.fresh b }
    {
        let heard = self.termios.heard(b);
        let kind = self.termios.kind_of(heard);
        *echo = self.echo_of(heard, kind);
        match kind {
            Kind::Interrupt => {
                self.restart();
                Given::Sig(Signal::numbered(2))
            }
            Kind::Quit => {
                self.restart();
                Given::Sig(Signal::numbered(3))
            }
            Kind::Kill => self.kill(),
            Kind::Erase => self.erase(b),
            Kind::Eof => self.finish(false),
            Kind::End => self.finish(true),
            Kind::Data => self.data(b, heard),
        }
    }

    /// The line that the last push delivered, or an empty one if it delivered none.
    pub fn line(&self) -> &[u8]
        ensures { result.now ≡ self.now.line }
    {
        self.line.as_slice()
    }

    /// The bytes that were typed since the last delivery and not erased.
    pub fn rest(&self) -> &[u8]
        ensures { result.now ≡ kept_bytes self.now.termios self.now.fresh }
    {
        self.kept.as_slice()
    }

    // Whether no byte more can be fresh.
    fn is_full(&self) -> bool
        ensures value { result ≡ is_full self.now.fresh }
        ensures full { OnTrue result (4095 ≤ length self.now.fresh) }
        ensures room { OnFalse result (length self.now.fresh < 4095) }
    {
        self.fresh.room() == 0
    }

    // The echo of a byte, by the byte that it counts as.
    fn echo_of(&self, heard: u8, kind: Kind) -> EchoBytes
        ensures { result ≡ if self.now.termios.echo
            then echo_by self.now.termios self.now.fresh heard kind else [] }
    {
        if !self.termios.echo {
            return EchoBytes::new();
        }
        match kind {
            Kind::Interrupt => caret(heard),
            Kind::Quit => caret(heard),
            Kind::Kill => newline(&self.termios),
            Kind::Erase => {
                if self.is_full() {
                    single(BELL)
                } else {
                    erase_echo(columns_of(self.kept.last()))
                }
            }
            Kind::Eof => EchoBytes::new(),
            Kind::End => newline(&self.termios),
            Kind::Data => {
                if self.is_full() {
                    single(BELL)
                } else {
                    data_echo(&self.termios, heard)
                }
            }
        }
    }

    // A kill: the typed bytes are forgotten.
    fn kill(&mut self) -> Given
        ensures state { self.new ≡ make_typing self.old.termios [] [] }
        ensures given { result ≡ Nothing }
    {
        self.restart();
        Given::Nothing
    }

    // No byte is fresh any more, and no line was given.
    fn restart(&mut self)
        ensures { self.new ≡ make_typing self.old.termios [] [] }
    {
        self.end();
        self.line.truncate(0);
    }

    // The kept bytes become the line, and no byte is fresh any more.
    fn end(&mut self)
        ensures state { self.new
            ≡ make_typing self.old.termios [] (kept_bytes self.old.termios self.old.fresh) }
        ensures few { length self.new.line ≤ 4095 }
    {
        self.kept.give(&mut self.line);
        self.fresh.truncate(0);
    }

    // The end of a line, which gives the kept bytes, and 0A if that belongs to the line.
    fn finish(&mut self, with_end: bool) -> Given
        ensures state { self.new ≡ make_typing self.old.termios [] (ended_line self.old with_end) }
        ensures given { result ≡ Line }
    {
        self.end();
        if with_end {
            self.line.push(0x0A);
        }
        Given::Line
    }

    // An erase, which drops the last character that is kept.
    fn erase(&mut self, b: u8) -> Given
        requires kind { kind self.old.termios b ≡ Erase }
        ensures state { self.new ≡ make_typing self.old.termios
            (fresh self.old.termios (self.old.fresh ++ b ∷ [])) [] }
        ensures given { result ≡ Nothing }
    {
        self.line.truncate(0);
        if self.is_full() {
            return Given::Nothing;
        }
        self.fresh.push(b);
        self.kept.drop_last();
        Given::Nothing
    }

    // Data, which is given at once if lines aren't edited.
    fn data(&mut self, b: u8, heard: u8) -> Given
        requires kind { kind self.old.termios b ≡ Data }
        ensures state { self.new ≡ make_typing self.old.termios
            (fresh self.old.termios (self.old.fresh ++ b ∷ [])) [] }
        ensures given { result ≡ if self.old.termios.icanon then Nothing else Byte heard }
    {
        self.line.truncate(0);
        if self.termios.icanon {
            self.add(b);
            Given::Nothing
        } else {
            Given::Byte(heard)
        }
    }

    // Data of a line.
    fn add(&mut self, b: u8)
        requires canonical { self.old.termios.icanon ≡ true }
        requires kind { kind self.old.termios b ≡ Data }
        ensures { self.new ≡ make_typing self.old.termios
            (fresh self.old.termios (self.old.fresh ++ b ∷ [])) self.old.line }
    {
        if self.is_full() {
            return;
        }
        let joins = self.goes_on(b);
        self.kept.put(joins, b);
        self.fresh.push(b);
    }

    // Whether the byte goes on with the last character that is kept: the byte before it wasn't erased,
    // nor is it an erase.
    fn goes_on(&self, b: u8) -> bool
        ensures { result ≡ (ends_open self.now.termios.erase self.now.fresh
            && is_part (last_of (kept_characters self.now.termios self.now.fresh) ++ b ∷ [])) }
    {
        ends_open(self.termios.erase, self.fresh.as_slice()) && self.kept.joins(b)
    }
}

// Whether there is a last byte that isn't the erase byte.
fn ends_open(erase: u8, fresh: &[u8]) -> bool
    ensures { result ≡ ends_open erase fresh.now }
{
    match fresh.split_last() {
        Some((b, _)) => *b != erase,
        None => false,
    }
}
