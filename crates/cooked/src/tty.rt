ghost use Rattle.std.specs.Prelude.{◌≡◌, ◌≤◌, [], false, None, IfOk, OnErr};
ghost use Rattle.cooked.specs.Cooked.{make_typing};
ghost use Rattle.cooked.specs.Termios.{IsValid};
ghost use Rattle.cooked.specs.Turn.{ReadAnswer, ReadResult, Reads, Turns, Writes, stop_of};
ghost use Rattle.vt_hub.specs.Histories.{awaits};

use crate::cooked_line::Cooked;
use crate::echo_bytes::EchoBytes;
use crate::given::Given;
use crate::stop::Stop;
use crate::termios::Termios;
use crate::turn::Turn;
use std::alloc::Global;
use std::marker::Model;
use std::sync::Wait;
use vt_base::{Bytes, NoMemory};
use vt_events::{Event, Reply};
use vt_hub::{Answer, Hub, Opening, Pass, Seat};
use vt_world::Spare;

/// The most bytes that one byte echoes.
const ECHO_BYTES: usize = 8;

/// A line discipline of a process on one of its descriptors. Contracts see it as a [`Cooked`].
#[derive(Drop)]
pub struct Tty {
    cooked: Cooked,
}

impl Model for Tty {
    ghost use Rattle.cooked.specs.Cooked.{Typing};

    ghost Value = { Typing };

    ghost view = { λ t. t.cooked };
}

impl Tty {
    /// A line discipline without input. All its memory is taken here.
    pub fn start(alloc: Global, t: Termios) -> Result<Tty, NoMemory>
        requires { IsValid t }
        ensures { IfOk result (λ tty. tty ≡ make_typing t [] []) }
    {
        let cooked = Cooked::start(alloc, t)?;
        Ok(Tty { cooked })
    }

    /// The line discipline.
    pub fn cooked(&self) -> &Cooked
        ensures { result.now ≡ self.now }
    {
        &self.cooked
    }

    /// Reads one byte, pushes it, and writes its echo. The memory is taken before the first call.
    pub fn turn<J: Opening, R: Wait>(
        &mut self,
        rt: &R,
        alloc: Global,
        hub: &Hub<J>,
        pass: &mut Pass<J>,
        fd: u16,
    ) -> Result<Turn, NoMemory>
        requires own { pass.old.hub ≡ hub.now }
        requires free { pass.old.stop ≡ None → awaits pass.old.mine ≡ false }
        ensures ok { IfOk result (λ turn. Turns J.start fd self.old self.new turn pass.old pass.new) }
        ensures err { OnErr result ((self.new ≡ self.old) × (pass.new ≡ pass.old)) }
    {
        let room = Bytes::with_room(alloc, ECHO_BYTES)?;
        let seat = Seat { rt, alloc, hub };
        let read = read_byte(&seat, pass, fd)?;
        match read {
            Ok(b) => {
                let mut echo = EchoBytes::new();
                let given = self.cooked.push(b, &mut echo);
                let stop = write_echo(&seat, pass, fd, &echo, room);
                Ok(Turn { given, stop })
            }
            Err(stop) => Ok(Turn {
                given: Given::Nothing,
                stop: Some(stop),
            }),
        }
    }
}

// Reads one byte.
fn read_byte<J: Opening, R: Wait>(
    seat: &Seat<J, R>,
    pass: &mut Pass<J>,
    fd: u16,
) -> Result<Result<u8, Stop>, NoMemory>
    requires own { pass.old.hub ≡ seat.now }
    requires free { pass.old.stop ≡ None → awaits pass.old.mine ≡ false }
    ensures ok { IfOk result (λ read. Reads J.start fd pass.old pass.new read) }
    ensures err { OnErr result (pass.new ≡ pass.old) }
{
    let answer = seat.ask(pass, Event::ReadIn(fd, 1))?;
    match answer {
        Answer::Done { at: _, reply } => Ok(byte_of(reply)),
        Answer::Full(full) => Ok(Err(Stop::Full(full))),
    }
}

// The byte in the answer to a read of one.
fn byte_of(reply: Reply) -> Result<u8, Stop>
    requires { ReadAnswer 1 reply }
    ensures { ReadResult reply result }
{
    match reply {
        Reply::Text(b) => Ok(b.as_slice()[0]),
        Reply::Err(errno) => Err(Stop::Err(errno)),
        _ => unreachable!(),
    }
}

// Writes the echo, unless it is empty, and returns the stop, if there was one.
fn write_echo<J: Opening, R: Wait>(
    seat: &Seat<J, R>,
    pass: &mut Pass<J>,
    fd: u16,
    echo: &EchoBytes,
    room: Bytes,
) -> Option<Stop>
    requires own { pass.old.hub ≡ seat.now }
    requires met { pass.old.stop ≡ None }
    requires free { awaits pass.old.mine ≡ false }
    requires empty { room.bytes ≡ [] }
    requires room { 8 ≤ room.room }
    ensures { Writes J.start fd echo.now pass.old pass.new result }
{
    let bytes = echo.as_slice();
    if bytes.is_empty() {
        return None;
    }
    let mut room = room;
    room.append(bytes);
    let none = Spare::none(seat.alloc);
    match seat.hub.call(seat.rt, pass, Event::Write(fd, room), none) {
        Answer::Done { at: _, reply } => stop_of(&reply),
        Answer::Full(full) => Some(Stop::Full(full)),
    }
}

fn stop_of(reply: &Reply) -> Option<Stop>
    ensures { result ≡ stop_of reply.now }
{
    match reply {
        Reply::Err(errno) => Some(Stop::Err(*errno)),
        _ => None,
    }
}
