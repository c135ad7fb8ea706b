//! The words of every call and every answer, each in the journal of one call that is printed and read, by the table in
//! docs/reference/journal.md.
use super::answer::Answer;
use crate::tests::checks::check_made;
use std::alloc::Global;
use std::slice::from_ref;
use vt_base::{Bytes, CallerNo, Errno, NoMemory, VtMode};
use vt_events::{Entry, Event, Reply};
use vt_journal::{Tail, print, read_event};

// The words of each call, and how its event is printed for debugging, up to its bytes.
const CALLS: &[(&[u8], &str)] = &[
    (b"scan e0", "Scan(224)"),
    (b"exit", "Exit"),
    (b"open 63", "OpenCon(63)"),
    (b"close 15", "CloseFd(15)"),
    (b"write 1 68690a", "Write(1, "),
    (b"read 1 4096", "ReadIn(1, 4096)"),
    (b"waitinput 1", "WaitInput(1)"),
    (b"waitactive 1 2", "WaitActive(1, 2)"),
    (b"waitsignal", "WaitSignal"),
    (b"waitend", "WaitEnd"),
    (b"activate 1 2", "Activate(1, 2)"),
    (b"disallocate 1 0", "Disallocate(1, 0)"),
    (b"openqry 1", "OpenQry(1)"),
    (b"getstate 1", "GetState(1)"),
    (b"resize 1 25 80", "Resize(1, 25, 80)"),
    (b"lock 1", "LockSwitch(1)"),
    (b"unlock 1", "UnlockSwitch(1)"),
    (b"setkd 2 1", "SetKd(2, 1)"),
    (b"getkd 2", "GetKd(2)"),
    (b"setmode 0 1 2 10 12 3", "SetMode(0, 1, 2, 10, 12, 3)"),
    (b"getmode 2", "GetMode(2)"),
    (b"reldisp 0 2", "RelDisp(0, 2)"),
    (b"setkb 2 3", "SetKb(2, 3)"),
    (b"getkb 2", "GetKb(2)"),
    (b"setmeta 2 4", "SetMeta(2, 4)"),
    (b"getmeta 2", "GetMeta(2)"),
    (b"setled 2 7", "SetLed(2, 7)"),
    (b"getled 2", "GetLed(2)"),
    (b"setflags 2 119", "SetFlags(2, 119)"),
    (b"getflags 2", "GetFlags(2)"),
    (b"setent 1 2 30 0 97", "SetEntry(1, 2, 30, 0, 97)"),
    (b"getent 1 2 30", "GetEntry(1, 2, 30)"),
    (b"setfunc 1 2 1b5b41", "SetFunc(1, 2, "),
    (b"getfunc 1 2", "GetFunc(1, 2)"),
    (b"setdia 1 -", "SetDia(1, "),
    (b"getdia 1", "GetDia(1)"),
    (b"setcode 1 57437 127", "SetCode(1, 57437, 127)"),
    (b"getcode 1 57437", "GetCode(1, 57437)"),
    (b"accept 1 10", "Accept(1, 10)"),
    (b"setmap 1 00f0", "SetMap(1, "),
    (b"getmap 1", "GetMap(1)"),
    (b"setpal 1 aa55", "SetPal(1, "),
    (b"getpal 1", "GetPal(1)"),
    (b"dump 2 0", "Dump(2, 0)"),
    (b"signals", "TakeSignals"),
    (b"kill 64 9", "Kill(64, 9)"),
];

const END: Tail = Tail::End {
    events: 1,
    bytes: 2,
};

// The answer in a journal of one call: the text after the call's words and "=", and before the last line.
fn answer_in<'a>(journal: &'a [u8], call: &[u8]) -> Option<&'a [u8]> {
    journal
        .strip_prefix(b"%journal 2\np1 0 ")?
        .strip_prefix(call)?
        .strip_prefix(b" = ")?
        .strip_suffix(b"\n%end 1 2\n")
}

fn is_printed(alloc: Global, entry: &Entry, call: &[u8], wanted: &[u8]) -> Result<bool, NoMemory> {
    let mut text = Bytes::new(alloc);
    print(alloc, from_ref(entry), 2, &END, &mut text)?;
    Ok(match answer_in(text.as_slice(), call) {
        Some(answer) => answer == wanted,
        None => false,
    })
}

// Whether the line of this call and this answer has these words.
fn is_line(
    alloc: Global,
    event: Event,
    reply: Reply,
    call: &[u8],
    wanted: &[u8],
) -> Result<bool, NoMemory> {
    let Some(caller) = CallerNo::new(1) else {
        return Ok(false);
    };
    let entry = Entry {
        caller,
        seq: 0,
        event,
        reply,
    };
    is_printed(alloc, &entry, call, wanted)
}

fn shown(alloc: Global, event: &Event) -> Result<String, NoMemory> {
    Ok(format!(in alloc; "{event:?}")?)
}

fn begins(text: &str, start: &str) -> bool {
    text.as_bytes().starts_with(start.as_bytes())
}

// Whether the event is printed so for debugging. If memory ran out, it isn't.
fn is_shown(alloc: Global, event: &Event, start: &str) -> bool {
    match shown(alloc, event) {
        Ok(text) => begins(text.as_str(), start),
        Err(NoMemory) => false,
    }
}

fn reads_as(alloc: Global, words: &[u8], start: &str) -> Result<bool, NoMemory> {
    match read_event(alloc, words)? {
        Some(event) => Ok(is_shown(alloc, &event, start)),
        None => Ok(false),
    }
}

fn prints_as(alloc: Global, words: &[u8]) -> Result<bool, NoMemory> {
    match read_event(alloc, words)? {
        Some(event) => is_line(alloc, event, Reply::Done, words, b"ok"),
        None => Ok(false),
    }
}

fn has_words(alloc: Global, words: &[u8], start: &str) -> Result<bool, NoMemory> {
    Ok(reads_as(alloc, words, start)? && prints_as(alloc, words)?)
}

#[test]
fn every_call_has_its_words(rt: HostRuntime) {
    for &(words, start) in CALLS {
        check_made(&rt, has_words(rt.alloc(), words, start), words);
    }
}

const MODE: VtMode = VtMode {
    mode: 1,
    waitv: 2,
    relsig: 10,
    acqsig: 12,
    frsig: 3,
};

const ANSWERS: &[(Answer, &[u8])] = &[
    (Answer::Done, b"ok"),
    (Answer::Num(4_294_967_295), b"num 4294967295"),
    (
        Answer::State(63, 9_223_372_036_854_775_810),
        b"state 63 9223372036854775810",
    ),
    (Answer::Text(b"\x00\xA9"), b"bytes 00a9"),
    (Answer::Mode(MODE), b"mode 1 2 10 12 3"),
    (Answer::Act(14, 65_535), b"act 14 65535"),
    (Answer::Wait, b"wait"),
    (Answer::Sigs(0), b"sigs 0"),
    (
        Answer::Sigs(0x8000_0000_0000_0001),
        b"sigs 9223372036854775809",
    ),
    (Answer::Err(Errno::Notty), b"err 25"),
];

fn is_answer(alloc: Global, answer: Answer, words: &[u8]) -> Result<bool, NoMemory> {
    let reply = answer.reply(alloc)?;
    is_line(alloc, Event::Exit, reply, b"exit", words)
}

#[test]
fn every_answer_has_its_words(rt: HostRuntime) {
    for &(answer, words) in ANSWERS {
        check_made(&rt, is_answer(rt.alloc(), answer, words), words);
    }
}
