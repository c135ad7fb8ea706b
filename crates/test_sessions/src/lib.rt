//! The texts of sessions that tests of several crates use.
#![tactic(auto)]

/// Process 1 handles switches by signals, and lets the display go at signal 10; process 2 requests its own
/// console, 2.
pub const HANDOVER: &str = "rows = 2
cols = 5
consoles = [1, 2]
[[process]]
home = 1
script = ['open 1', 'setmode 0 1 0 10 12 0', 'waitsignal']
hooks = ['10 disp 0 1']
[[process]]
home = 2
script = ['open 2', 'activate 0 2']
";

/// Process 1 handles switches and never lets the display go, and exits; process 2 requests its own console, 2.
pub const ABANDONED: &str = "rows = 2
cols = 5
consoles = [1, 2]
[[process]]
home = 1
script = ['open 1', 'setmode 0 1 0 10 12 0']
[[process]]
home = 2
script = ['open 2', 'activate 0 2']
";

/// A shell, and a display server that hands its console over.
pub const ORDINARY: &str = "keys = '1e 9e 38 41 c1 b8 30 b0'
keymap = '''
keymaps 0-2,4-5,8,12
alt_is_meta
keycode 30 = a
keycode 48 = b
keycode 56 = Alt
keycode 65 = F7
alt keycode 65 = Console_7
strings as usual
compose as usual
'''
[[process]]
home = 1
script = ['open 1', 'say 0 $ ', 'waitinput 0', 'read 0 64']
[[process]]
home = 7
privileged = true
script = ['open 7', 'setmode 0 1 0 10 12 0', 'setkd 0 1', 'waitsignal']
hooks = ['10 disp 0 1', '12 disp 0 2']
";
