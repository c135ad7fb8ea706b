//! The keyboards: their bytes, the settings of a console's keys, the key tables and the scan numbers.
ghost use Rattle.std.specs.Prelude.{◌≡◌, ◌≤◌, [], IsTrue, length, unwrap_or};
ghost use Rattle.key_tables.specs.Tables.{exists_in};
ghost use Rattle.vt_base.specs.Keyboards.{keyboard_of};
ghost use Rattle.vt_events.specs.declared.event.Event.TheVariants as event;
ghost use Rattle.vt_world.specs.Rows.{lights_of};
ghost use Rattle.vt_world.specs.Step.{HasRowResult, own_row_result, text_of_answer};
ghost use Rattle.vt_world.specs.Refusals.{is_flags, is_keycode};

use crate::World;
use crate::rows::answers::{emptied, text_reply};
use crate::rows::refusals::check_sense;
use call_bytes::{add_pairs, read_pairs};
use key_machine::{meta, mode};
use key_syms::Action;
use vt_base::{Bytes, CallerNo, Errno, KeyboardNo};
use vt_events::Reply;

/// The greatest number that sets lights.
const MOST_LIGHTS: u16 = 7;

/// The answer for a key of a table that doesn't exist (ioctl_console(2), KDGKBENT).
const NO_TABLE: Reply = Reply::Act { kind: 14, value: 0 };

/// The greatest number of a table, of a function key and of a keycode.
const GREATEST_NUMBER: u16 = 255;

/// The most bytes of a function string.
const MOST_BYTES: usize = 255;

impl World {
    /// Takes a scan byte of a keyboard.
    pub(crate) fn scan(&mut self, p: CallerNo, b: u8) -> Result<Reply, Errno>
        requires clear { self.old.trace.marks ≡ [] }
        ensures { HasRowResult (own_row_result self.old p (event.Scan b)) self.new result }
    {
        let front = self.switch.front();
        self.scan_on(number_of(p), front, b);
        Ok(Reply::Done)
    }

    /// Sets the keyboard mode of the descriptor's console (ioctl_console(2), KDSKBMODE).
    pub(crate) fn set_keyboard_mode(&mut self, p: CallerNo, fd: u16, m: u16) -> Result<Reply, Errno>
        ensures { HasRowResult (own_row_result self.old p (event.SetKb fd m)) self.new result }
    {
        let c = self.owned_console(p, fd)?;
        check_sense(m <= u16::from(mode::OFF))?;
        let mut keys = self.inputs.keys(c);
        keys.mode = m as u8;
        self.inputs.set_keys(c, keys);
        Ok(Reply::Done)
    }

    /// The keyboard mode of the descriptor's console (ioctl_console(2), KDGKBMODE).
    pub(crate) fn get_keyboard_mode(&mut self, p: CallerNo, fd: u16) -> Result<Reply, Errno>
        ensures { HasRowResult (own_row_result self.old p (event.GetKb fd)) self.new result }
    {
        let c = self.opened(p, fd)?;
        Ok(Reply::Num(u32::from(self.inputs.keys(c).mode)))
    }

    /// Sets the effect of Meta on the descriptor's console (ioctl_console(2), KDSKBMETA).
    pub(crate) fn set_meta(&mut self, p: CallerNo, fd: u16, m: u16) -> Result<Reply, Errno>
        ensures { HasRowResult (own_row_result self.old p (event.SetMeta fd m)) self.new result }
    {
        let known = m == u16::from(meta::METABIT) || m == u16::from(meta::ESCPREFIX);
        let c = self.owned_console(p, fd)?;
        check_sense(known)?;
        let mut keys = self.inputs.keys(c);
        keys.meta = m as u8;
        self.inputs.set_keys(c, keys);
        Ok(Reply::Done)
    }

    /// The effect of Meta on the descriptor's console (ioctl_console(2), KDGKBMETA).
    pub(crate) fn get_meta(&mut self, p: CallerNo, fd: u16) -> Result<Reply, Errno>
        ensures { HasRowResult (own_row_result self.old p (event.GetMeta fd)) self.new result }
    {
        let c = self.opened(p, fd)?;
        Ok(Reply::Num(u32::from(self.inputs.keys(c).meta)))
    }

    /// Sets the lights of the descriptor's console, or lets them show the flags again
    /// (ioctl_console(2), KDSETLED).
    pub(crate) fn set_lights(&mut self, p: CallerNo, fd: u16, v: u16) -> Result<Reply, Errno>
        ensures { HasRowResult (own_row_result self.old p (event.SetLed fd v)) self.new result }
    {
        let c = self.owned_console(p, fd)?;
        let mut keys = self.inputs.keys(c);
        keys.lights = lights_of(v);
        self.inputs.set_keys(c, keys);
        Ok(Reply::Done)
    }

    /// The lights of the descriptor's console, which may be its flags (ioctl_console(2), KDGETLED).
    pub(crate) fn get_lights(&mut self, p: CallerNo, fd: u16) -> Result<Reply, Errno>
        ensures { HasRowResult (own_row_result self.old p (event.GetLed fd)) self.new result }
    {
        let c = self.opened(p, fd)?;
        let keys = self.inputs.keys(c);
        Ok(Reply::Num(u32::from(keys.lights.unwrap_or(keys.flags))))
    }

    /// Sets the keyboard flags of the descriptor's console, and those of a reset (ioctl_console(2),
    /// KDSKBLED).
    pub(crate) fn set_flags(&mut self, p: CallerNo, fd: u16, v: u16) -> Result<Reply, Errno>
        ensures { HasRowResult (own_row_result self.old p (event.SetFlags fd v)) self.new result }
    {
        let c = self.owned_console(p, fd)?;
        check_sense(is_flags(v))?;
        let mut keys = self.inputs.keys(c);
        keys.flags = (v % 16) as u8;
        keys.defaults = (v / 16) as u8;
        self.inputs.set_keys(c, keys);
        Ok(Reply::Done)
    }

    /// The keyboard flags of the descriptor's console, and those of a reset (ioctl_console(2),
    /// KDGKBLED).
    pub(crate) fn get_flags(&mut self, p: CallerNo, fd: u16) -> Result<Reply, Errno>
        ensures { HasRowResult (own_row_result self.old p (event.GetFlags fd)) self.new result }
    {
        let c = self.opened(p, fd)?;
        let keys = self.inputs.keys(c);
        Ok(Reply::Num(u32::from(keys.flags) + 16 * u32::from(keys.defaults)))
    }

    /// Sets the action of a keycode in a key table (ioctl_console(2), KDSKBENT).
    pub(crate) fn set_entry(
        &mut self,
        p: CallerNo,
        fd: u16,
        t: u16,
        code: u16,
        kind: u16,
        value: u16,
    ) -> Result<Reply, Errno>
        ensures { HasRowResult (own_row_result self.old p (event.SetEntry fd t code kind value)) self.new result }
    {
        self.owned_console(p, fd)?;
        check_sense(self.has_table(t) && is_keycode(code))?;
        let action = Action::new(kind, value).ok_or(Errno::Inval)?;
        self.board.tables.set_entry(t as u8, code as u8, action);
        Ok(Reply::Done)
    }

    // Whether there is a key table of the number.
    fn has_table(&self, t: u16) -> bool
        ensures table { result ≡ exists_in self.now.board.tables t }
        ensures bound { IsTrue result → t ≤ 255 }
    {
        let exists = self.board.tables.exists((t % 256) as u8);
        t <= GREATEST_NUMBER && exists
    }

    /// The action of a keycode in a key table (ioctl_console(2), KDGKBENT).
    pub(crate) fn get_entry(
        &mut self,
        p: CallerNo,
        fd: u16,
        t: u16,
        code: u16,
    ) -> Result<Reply, Errno>
        ensures { HasRowResult (own_row_result self.old p (event.GetEntry fd t code)) self.new result }
    {
        self.opened(p, fd)?;
        check_sense(t <= GREATEST_NUMBER && is_keycode(code))?;
        match self.board.tables.entry(t as u8, code as u8) {
            Some(a) => Ok(Reply::Act {
                kind: a.kind,
                value: a.value,
            }),
            None => Ok(NO_TABLE),
        }
    }

    /// Sets a function string (ioctl_console(2), KDSKBSENT).
    pub(crate) fn set_func(
        &mut self,
        p: CallerNo,
        fd: u16,
        i: u16,
        b: &Bytes,
    ) -> Result<Reply, Errno>
        ensures { HasRowResult (own_row_result self.old p (event.SetFunc fd i b.now)) self.new result }
    {
        let text = b.as_slice();
        self.owned_console(p, fd)?;
        check_sense(i <= GREATEST_NUMBER && text.len() <= MOST_BYTES)?;
        self.board.tables.set_func(i as u8, text);
        Ok(Reply::Done)
    }

    /// A function string (ioctl_console(2), KDGKBSENT).
    pub(crate) fn get_func(
        &mut self,
        p: CallerNo,
        fd: u16,
        i: u16,
        reply: Bytes,
    ) -> Result<Reply, Errno>
        requires { 255 ≤ reply.room }
        ensures effect { HasRowResult (own_row_result self.old p (event.GetFunc fd i)) self.new result }
        ensures bytes { length (text_of_answer result) ≤ 255 }
    {
        self.opened(p, fd)?;
        check_sense(i <= GREATEST_NUMBER)?;
        Ok(text_reply(self.board.tables.func(i as u8), reply))
    }

    /// Sets the pairs of compose keys (ioctl_console(2), KDSKBDIACRUC).
    pub(crate) fn set_pairs(&mut self, p: CallerNo, fd: u16, b: &Bytes) -> Result<Reply, Errno>
        ensures { HasRowResult (own_row_result self.old p (event.SetDia fd b.now)) self.new result }
    {
        self.owned_console(p, fd)?;
        let pairs = read_pairs(b.as_slice()).ok_or(Errno::Inval)?;
        self.board.tables.set_pairs(pairs.as_slice());
        Ok(Reply::Done)
    }

    /// The pairs of compose keys (ioctl_console(2), KDGKBDIACRUC).
    pub(crate) fn get_pairs(&mut self, p: CallerNo, fd: u16, reply: Bytes) -> Result<Reply, Errno>
        requires { 3072 ≤ reply.room }
        ensures effect { HasRowResult (own_row_result self.old p (event.GetDia fd)) self.new result }
        ensures bytes { length (text_of_answer result) ≤ 3072 }
    {
        self.opened(p, fd)?;
        let mut reply = emptied(reply);
        add_pairs(self.board.tables.pairs(), &mut reply);
        Ok(Reply::Text(reply))
    }

    /// Gives a scan number another keycode on all keyboards (ioctl_console(2), KDSETKEYCODE).
    pub(crate) fn set_code(
        &mut self,
        p: CallerNo,
        fd: u16,
        scan: u16,
        code: u16,
    ) -> Result<Reply, Errno>
        ensures { HasRowResult (own_row_result self.old p (event.SetCode fd scan code)) self.new result }
    {
        self.owned_console(p, fd)?;
        if self.board.scanners[0].get(scan).is_err() || code > GREATEST_NUMBER {
            return Err(Errno::Inval);
        }
        self.board.set_code(scan, code);
        Ok(Reply::Done)
    }

    /// The keycode of a scan number (ioctl_console(2), KDGETKEYCODE).
    pub(crate) fn get_code(&mut self, p: CallerNo, fd: u16, scan: u16) -> Result<Reply, Errno>
        ensures { HasRowResult (own_row_result self.old p (event.GetCode fd scan)) self.new result }
    {
        self.opened(p, fd)?;
        let Ok(code) = self.board.scanners[0].get(scan) else {
            return Err(Errno::Inval);
        };
        Ok(Reply::Num(u32::from(code)))
    }
}

// The keyboard's number: 0 for a process, whose scan bytes are refused earlier.
fn number_of(p: CallerNo) -> KeyboardNo
    ensures { result ≡ unwrap_or (keyboard_of p) 0 }
{
    match p.keyboard_no() {
        Some(k) => KeyboardNo::numbered(k),
        None => KeyboardNo::numbered(0),
    }
}

// The lights that the number sets.
fn lights_of(v: u16) -> Option<u8>
    ensures { result ≡ lights_of v }
{
    if v > MOST_LIGHTS { None } else { Some(v as u8) }
}

// Whether the number is three flags, and three flags of a reset.
fn is_flags(v: u16) -> bool
    ensures { result ≡ is_flags v }
{
    v < 128 && v % 16 < 8
}

// Whether key tables have an entry for the keycode.
fn is_keycode(code: u16) -> bool
    ensures { result ≡ is_keycode code }
{
    1 <= code && code <= GREATEST_NUMBER
}
