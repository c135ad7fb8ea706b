ghost use Rattle.std.specs.Prelude.{◌≡◌, IfOk};
ghost use Rattle.vt_events.specs.Plain.{plain_event};

use crate::Parts;
use std::alloc::Global;
use vt_base::{Bytes, NoMemory};

/// A call of a caller. The doc comment of a variant begins with the words of the call in a journal: the name, then a
/// word for each field. HH is a byte, B is bytes, and every other word is a number. FD is one of the caller's
/// descriptors; it names the console that it was opened on. `dev/gen/call_lists.py` writes each list of calls from
/// these words.
#[derive(Debug, Drop)]
pub enum Event {
    /// `scan HH`: a byte of the keyboard.
    Scan(u8),
    /// `exit`: the end of the caller.
    Exit,
    /// `open N`: a descriptor for console N, or for the console in front if N is 0.
    OpenCon(u16),
    /// `close FD`: the descriptor is given back (close(2)).
    CloseFd(u16),
    /// `write FD B`: the bytes B to the descriptor's console.
    Write(u16, Bytes),
    /// `read FD M`: the first M bytes of the console's input, or all if there are fewer (read(2)).
    ReadIn(u16, u16),
    /// `waitinput FD`: waits until the console has input. This project's own.
    WaitInput(u16),
    /// `waitactive FD N`: waits until console N is in front (ioctl_console(2), VT_WAITACTIVE).
    WaitActive(u16, u16),
    /// `waitsignal`: waits for a signal (pause(2)).
    WaitSignal,
    /// `waitend`: how the caller's wait ended. This project's own.
    WaitEnd,
    /// `activate FD N`: a request to bring console N to the front (ioctl_console(2), VT_ACTIVATE).
    Activate(u16, u16),
    /// `disallocate FD N`: frees console N, or all that are not in use if N is 0
    /// (ioctl_console(2), VT_DISALLOCATE).
    Disallocate(u16, u16),
    /// `openqry FD`: the lowest console that nobody has open (ioctl_console(2), VT_OPENQRY).
    OpenQry(u16),
    /// `getstate FD`: the console in front, and those that are allocated (ioctl_console(2),
    /// VT_GETSTATE).
    GetState(u16),
    /// `resize FD R C`: R rows and C columns for the console (ioctl_console(2), VT_RESIZE).
    Resize(u16, u16, u16),
    /// `lock FD`: requests are ignored from now on (ioctl_console(2), VT_LOCKSWITCH).
    LockSwitch(u16),
    /// `unlock FD`: requests are taken again (ioctl_console(2), VT_UNLOCKSWITCH).
    UnlockSwitch(u16),
    /// `setkd FD M`: 0 shows text, 1 leaves the display to graphics (ioctl_console(2), KDSETMODE).
    SetKd(u16, u16),
    /// `getkd FD`: 0 or 1, as `setkd` set it (ioctl_console(2), KDGETMODE).
    GetKd(u16),
    /// `setmode FD M W R A F`: sets the mode of the descriptor's console to these words of a
    /// [`vt_base::VtMode`] (ioctl_console(2), VT_SETMODE).
    SetMode(u16, u16, u16, u16, u16, u16),
    /// `getmode FD`: those words (ioctl_console(2), VT_GETMODE).
    GetMode(u16),
    /// `reldisp FD A`: 1 lets the display go, 0 keeps it, 2 acknowledges having got it
    /// (ioctl_console(2), VT_RELDISP).
    RelDisp(u16, u16),
    /// `setkb FD M`: the keyboard mode of the console, from 0 for scan bytes to 4 for nothing
    /// (ioctl_console(2), KDSKBMODE).
    SetKb(u16, u16),
    /// `getkb FD`: that mode (ioctl_console(2), KDGKBMODE).
    GetKb(u16),
    /// `setmeta FD M`: Meta sets the high bit if M is 3, and puts ESC before the byte if M is 4
    /// (ioctl_console(2), KDSKBMETA).
    SetMeta(u16, u16),
    /// `getmeta FD`: 3 or 4, as `setmeta` set it (ioctl_console(2), KDGKBMETA).
    GetMeta(u16),
    /// `setled FD V`: sets the lights; if V is above 7, they show the flags again
    /// (ioctl_console(2), KDSETLED).
    SetLed(u16, u16),
    /// `getled FD`: the lights (ioctl_console(2), KDGETLED).
    GetLed(u16),
    /// `setflags FD V`: the keyboard flags, plus 16 times the flags after a reset
    /// (ioctl_console(2), KDSKBLED).
    SetFlags(u16, u16),
    /// `getflags FD`: both (ioctl_console(2), KDGKBLED).
    GetFlags(u16),
    /// `setent FD T C K V`: in key table T, keycode C gets the action of kind K and value V
    /// (ioctl_console(2), KDSKBENT).
    SetEntry(u16, u16, u16, u16, u16),
    /// `getent FD T C`: that action (ioctl_console(2), KDGKBENT).
    GetEntry(u16, u16, u16),
    /// `setfunc FD I B`: function string I (ioctl_console(2), KDSKBSENT).
    SetFunc(u16, u16, Bytes),
    /// `getfunc FD I`: that string (ioctl_console(2), KDGKBSENT).
    GetFunc(u16, u16),
    /// `setdia FD B`: the pairs of composed characters, twelve bytes each (ioctl_console(2),
    /// KDSKBDIACRUC).
    SetDia(u16, Bytes),
    /// `getdia FD`: those pairs (ioctl_console(2), KDGKBDIACRUC).
    GetDia(u16),
    /// `setcode FD S C`: scan code S gives keycode C (ioctl_console(2), KDSETKEYCODE).
    SetCode(u16, u16, u16),
    /// `getcode FD S`: that keycode (ioctl_console(2), KDGETKEYCODE).
    GetCode(u16, u16),
    /// `accept FD S`: KeyboardSignal sends signal S to the caller from now on
    /// (ioctl_console(2), KDSIGACCEPT).
    Accept(u16, u16),
    /// `setmap FD B`: the console's own table of characters, two bytes for each of 256
    /// (ioctl_console(2), PIO_UNISCRNMAP).
    SetMap(u16, Bytes),
    /// `getmap FD`: that table (ioctl_console(2), GIO_UNISCRNMAP).
    GetMap(u16),
    /// `setpal FD B`: the palette, three bytes for each of 16 colours (ioctl_console(2), PIO_CMAP).
    SetPal(u16, Bytes),
    /// `getpal FD`: the palette (ioctl_console(2), GIO_CMAP).
    GetPal(u16),
    /// `dump K N`: the screen of console N, or of the console in front if N is 0: its bytes if K is 0,
    /// bytes and attributes if K is 1 (vcs(4)), its code points if K is 2.
    Dump(u16, u16),
    /// `signals`: takes the caller's pending signals. This project's own.
    TakeSignals,
    /// `kill P S`: signal S to caller P (kill(2)).
    Kill(u16, u16),
}

impl Event {
    /// A copy of the call, whose bytes have no spare room.
    #[tactic(auto, using(crate::proofs::Calls::of_kind))]
    pub fn copy(&self, alloc: Global) -> Result<Event, NoMemory>
        ensures { IfOk result (λ copy. copy ≡ plain_event self.now) }
    {
        let parts = Parts::of(self);
        let held = match parts.held() {
            Some(bytes) => Bytes::from_slice(alloc, bytes)?,
            None => Bytes::new(alloc),
        };
        Ok(parts.kind().call(parts.numbers(), held))
    }
}
