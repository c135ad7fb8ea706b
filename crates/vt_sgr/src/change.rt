//! The changes that one parameter makes to a pen.
ghost use Rattle.std.specs.Prelude.{◌≡◌, ◌<◌};
ghost use Rattle.vt_sgr.specs.PenState.{with_mapping, plain, with_bg, with_blink, with_bright, with_fg, with_intensity, with_italic, with_reverse, with_underline};

use crate::Pen;
use vt_cells::{Attr, Intensity};

pub(crate) fn set_plain(p: &mut Pen)
    ensures { p.new ≡ plain p.old }
{
    p.attr = Attr {
        fg: p.def_fg,
        bg: p.def_bg,
        intensity: Intensity::Normal,
        italic: false,
        underline: false,
        blink: false,
        reverse: false,
    };
}

pub(crate) fn set_fg(p: &mut Pen, fg: u8)
    requires { fg < 16 }
    ensures { p.new ≡ with_fg p.old fg }
{
    p.attr.fg = fg;
}

pub(crate) fn set_bg(p: &mut Pen, bg: u8)
    requires { bg < 8 }
    ensures { p.new ≡ with_bg p.old bg }
{
    p.attr.bg = bg;
}

pub(crate) fn set_default_fg(p: &mut Pen)
    ensures { p.new ≡ with_fg p.old p.old.def_fg }
{
    p.attr.fg = p.def_fg;
}

pub(crate) fn set_default_bg(p: &mut Pen)
    ensures { p.new ≡ with_bg p.old p.old.def_bg }
{
    p.attr.bg = p.def_bg;
}

pub(crate) fn set_bright(p: &mut Pen, fg: u8, intensity: Intensity)
    requires { fg < 16 }
    ensures { p.new ≡ with_bright p.old fg intensity }
{
    p.attr.fg = fg;
    p.attr.intensity = intensity;
}

pub(crate) fn set_intensity(p: &mut Pen, intensity: Intensity)
    ensures { p.new ≡ with_intensity p.old intensity }
{
    p.attr.intensity = intensity;
}

pub(crate) fn set_italic(p: &mut Pen, on: bool)
    ensures { p.new ≡ with_italic p.old on }
{
    p.attr.italic = on;
}

pub(crate) fn set_underline(p: &mut Pen, on: bool)
    ensures { p.new ≡ with_underline p.old on }
{
    p.attr.underline = on;
}

pub(crate) fn set_blink(p: &mut Pen, on: bool)
    ensures { p.new ≡ with_blink p.old on }
{
    p.attr.blink = on;
}

pub(crate) fn set_reverse(p: &mut Pen, on: bool)
    ensures { p.new ≡ with_reverse p.old on }
{
    p.attr.reverse = on;
}

pub(crate) fn set_mapping(p: &mut Pen, alt: bool, display: bool, toggle: bool)
    ensures { p.new ≡ with_mapping p.old alt display toggle }
{
    p.alt = alt;
    p.display = display;
    p.toggle = toggle;
}
