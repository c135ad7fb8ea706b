//! Laws of the definitions, and of the numbers in the code.
ghost use Rattle.std.specs.Prelude.{◌≡◌};
ghost use Rattle.key_machine.specs.Histories.{AllComeUp, DownsAreLast, LocksStay, MediumBytesTell, PressesRecord, ReleasesTake};
ghost use Rattle.key_machine.specs.Keys.{start_modes};
ghost use Rattle.key_machine.specs.Laws.{KeysFollow, RecordsStay, UnplugTakes};
ghost use Rattle.key_machine.specs.Numbers as number;
ghost use Rattle.key_machine.specs.declared.key_modes.TheConstants as modes;
ghost use Rattle.key_machine.specs.declared.mode.TheConstants as mode;
ghost use Rattle.key_machine.specs.declared.meta.TheConstants as meta;
ghost use Rattle.key_machine.specs.declared.flag.TheConstants as flag;
ghost use Rattle.key_machine.specs.declared.special.TheConstants as special;
ghost use Rattle.key_machine.specs.declared.function.TheConstants as function;
ghost use Rattle.key_machine.specs.declared.cursor.TheConstants as cursor;
ghost use Rattle.key_machine.specs.declared.pad.TheConstants as pad;

/// A key is down exactly if its last event was that it goes down.
pub fn keys_follow()
    ensures { KeysFollow }
{}

/// A key keeps the action of its press until it goes up.
pub fn records_stay()
    ensures { RecordsStay }
{}

/// Unplugging a keyboard releases its own keys and changes nothing else.
pub fn unplug_takes()
    ensures { UnplugTakes }
{}

/// After a history a key is down exactly if its last event was that it goes down. If every key that
/// went down came up again, or its keyboard was unplugged, no key is down and the weight is 0.
pub fn keys_come_up()
    ensures last { DownsAreLast }
    ensures none { AllComeUp }
{}

/// The first press of a key records the action that is looked up then. The release of that key on
/// the same keyboard uses this record.
pub fn presses_record()
    ensures presses { PressesRecord }
    ensures releases { ReleasesTake }
{}

/// Locks change only at a press of a lock key.
pub fn locks_stay()
    ensures { LocksStay }
{}

/// In K_MEDIUMRAW different key events have different bytes.
pub fn medium_bytes_tell()
    ensures { MediumBytesTell }
{}

/// The numbers in the code and the modes of a start screen equal those of the definitions.
pub fn numbers_are_kept()
    ensures modes { (mode.RAW ≡ number.RAW)
        × (mode.XLATE ≡ number.XLATE)
        × (mode.MEDIUMRAW ≡ number.MEDIUMRAW)
        × (mode.UNICODE ≡ number.UNICODE)
        × (mode.OFF ≡ number.OFF) }
    ensures metas { (meta.METABIT ≡ number.METABIT)
        × (meta.ESCPREFIX ≡ number.ESCPREFIX) }
    ensures flags { (flag.SCROLL ≡ number.SCROLL)
        × (flag.NUM ≡ number.NUM)
        × (flag.CAPS ≡ number.CAPS) }
    ensures specials { (special.RETURN ≡ number.RETURN)
        × (special.CAPS_LOCK ≡ number.CAPS_LOCK)
        × (special.NUM_LOCK ≡ number.NUM_LOCK)
        × (special.SCROLL_LOCK ≡ number.SCROLL_LOCK)
        × (special.LAST_CONSOLE ≡ number.LAST_CONSOLE)
        × (special.INCR_CONSOLE ≡ number.INCR_CONSOLE)
        × (special.DECR_CONSOLE ≡ number.DECR_CONSOLE)
        × (special.KEYBOARD_SIGNAL ≡ number.KEYBOARD_SIGNAL)
        × (special.SAK ≡ number.SAK)
        × (special.COMPOSE ≡ number.COMPOSE)
        × (special.BARE_NUM_LOCK ≡ number.BARE_NUM_LOCK)
        × (special.CAPS_ON ≡ number.CAPS_ON) }
    ensures functions { (function.FIND ≡ number.FIND)
        × (function.INSERT ≡ number.INSERT)
        × (function.REMOVE ≡ number.REMOVE)
        × (function.SELECT ≡ number.SELECT)
        × (function.PRIOR ≡ number.PRIOR)
        × (function.NEXT ≡ number.NEXT) }
    ensures cursors { (cursor.DOWN ≡ number.DOWN)
        × (cursor.LEFT ≡ number.LEFT)
        × (cursor.RIGHT ≡ number.RIGHT)
        × (cursor.UP ≡ number.UP) }
    ensures pads { pad.ENTER ≡ number.ENTER }
    ensures start { modes.START_MODES ≡ start_modes }
{}
