//! The effect of SGR on a pen.
ghost use Rattle.std.specs.Prelude.{◌≡◌, ◌<◌, ◌≤◌, [], ◌∷◌, length, if◌then◌else◌};
ghost use Rattle.vt_cells.specs.declared.intensity.Intensity.TheVariants.{Bold, Normal};
ghost use Rattle.vt_sgr.specs.PenState.{with_bright};
ghost use Rattle.vt_sgr.specs.Sgr.{colour_of, colour_of_index, sgr, sgr_skipping, taken_by, with_bg_colour, with_fg_colour, with_form};

use crate::Pen;
use crate::change::{
    set_bg, set_blink, set_bright, set_default_bg, set_default_fg, set_fg, set_intensity,
    set_italic, set_mapping, set_plain, set_reverse, set_underline,
};
use crate::colour::{colour_len, colour_of, part};
use crate::indices::{background_of, foreground_of};
use vt_cells::{Intensity, fold_bg, fold_fg};

/// SGR: changes the pen by the parameters of the sequence (console_codes(4), "ECMA-48 Select Graphic
/// Rendition"), one after another.
pub fn apply(p: &mut Pen, params: &[u16])
    ensures { p.new ≡ sgr params.now p.old }
{
    match params {
        [] => set_form(p, 0, params),
        [n] => set_form(p, *n, &[]),
        [first, second] => apply_two(p, *first, *second),
        _ => apply_longer(p, params),
    }
}

// Most longer sequences are one colour, which needs no loop.
fn apply_longer(p: &mut Pen, params: &[u16])
    requires { 0 < length params.now }
    ensures { p.new ≡ sgr params.now p.old }
{
    let rest = &params[1..];
    if colour_len(rest) == rest.len() {
        match params[0] {
            38 => return set_fg_by(p, rest),
            48 => return set_bg_by(p, rest),
            _ => {}
        }
    }
    apply_all(p, params);
}

/// [`apply`] of three parameters, without a list: enough for a colour by its index.
pub fn apply_three(p: &mut Pen, first: u16, second: u16, third: u16)
    ensures { p.new ≡ sgr (first ∷ second ∷ third ∷ []) p.old }
{
    match (first, second) {
        (38, 5) => set_fg_index(p, third),
        (48, 5) => set_bg_index(p, third),
        _ => apply_listed(p, first, second, third),
    }
}

/// [`apply`] of five parameters, without a list: enough for a colour by its parts.
pub fn apply_five(p: &mut Pen, first: u16, second: u16, third: u16, fourth: u16, fifth: u16)
    ensures { p.new ≡ sgr (first ∷ second ∷ third ∷ fourth ∷ fifth ∷ []) p.old }
{
    match (first, second) {
        (38, 2) => set_fg_colour(p, Some((part(third), part(fourth), part(fifth)))),
        (48, 2) => set_bg_colour(p, Some((part(third), part(fourth), part(fifth)))),
        _ => apply_five_listed(p, first, second, third, fourth, fifth),
    }
}

#[inline(never)]
fn apply_five_listed(p: &mut Pen, first: u16, second: u16, third: u16, fourth: u16, fifth: u16)
    ensures { p.new ≡ sgr (first ∷ second ∷ third ∷ fourth ∷ fifth ∷ []) p.old }
{
    apply_all(p, &[first, second, third, fourth, fifth]);
}

// Not inlined: a list for other numbers would take room on the stack for colours too.
#[inline(never)]
fn apply_listed(p: &mut Pen, first: u16, second: u16, third: u16)
    ensures { p.new ≡ sgr (first ∷ second ∷ third ∷ []) p.old }
{
    apply_all(p, &[first, second, third]);
}

// Gives characters the hue and intensity of the colour of an index, if there is one.
fn set_fg_index(p: &mut Pen, index: u16)
    ensures { p.new ≡ with_fg_colour p.old (colour_of_index index) }
{
    if index <= 255 {
        let (fg, bold) = foreground_of(index as u8);
        set_foreground(p, fg, bold);
    }
}

// Gives characters this hue, bold or normal.
fn set_foreground(p: &mut Pen, fg: u8, bold: bool)
    requires { fg < 16 }
    ensures { p.new ≡ with_bright p.old fg (if bold then Bold else Normal) }
{
    let intensity = if bold {
        Intensity::Bold
    } else {
        Intensity::Normal
    };
    set_bright(p, fg, intensity);
}

fn set_bg_index(p: &mut Pen, index: u16)
    ensures { p.new ≡ with_bg_colour p.old (colour_of_index index) }
{
    if index <= 255 {
        set_bg(p, background_of(index as u8));
    }
}

// The usual sequences have one parameter or two: these need no loop.
fn apply_two(p: &mut Pen, first: u16, second: u16)
    ensures { p.new ≡ sgr (first ∷ second ∷ []) p.old }
{
    let rest = [second];
    set_form(p, first, &rest);
    if taken_by(first, &rest) == 0 {
        set_form(p, second, &[]);
    }
}

#[inline(never)]
fn apply_all(p: &mut Pen, params: &[u16])
    ensures { p.new ≡ sgr_skipping 0 params.now p.old }
{
    let mut at = 0;
    while at < params.len() {
        let n = params[at];
        let rest = &params[at + 1..];
        set_form(p, n, rest);
        at += 1 + taken_by(n, rest);
    }
}

// Changes the pen by one parameter, given those that follow it.
#[inline(always)]
fn set_form(p: &mut Pen, n: u16, rest: &[u16])
    ensures { p.new ≡ with_form n rest.now p.old }
{
    match n {
        0 => set_plain(p),
        1 => set_intensity(p, Intensity::Bold),
        2 => set_intensity(p, Intensity::Dim),
        3 => set_italic(p, true),
        4 | 21 => set_underline(p, true),
        5 => set_blink(p, true),
        7 => set_reverse(p, true),
        10 => set_mapping(p, false, false, false),
        11 => set_mapping(p, true, true, false),
        12 => set_mapping(p, true, true, true),
        22 => set_intensity(p, Intensity::Normal),
        23 => set_italic(p, false),
        24 => set_underline(p, false),
        25 => set_blink(p, false),
        27 => set_reverse(p, false),
        30..=37 => set_fg(p, (n - 30) as u8),
        38 => set_fg_by(p, rest),
        39 => set_default_fg(p),
        40..=47 => set_bg(p, (n - 40) as u8),
        48 => set_bg_by(p, rest),
        49 => set_default_bg(p),
        90..=97 => set_bright(p, (n - 90) as u8, Intensity::Bold),
        100..=107 => set_bg(p, (n - 100) as u8),
        _ => {}
    }
}

// The number of the following parameters that the parameter takes.
fn taken_by(n: u16, rest: &[u16]) -> usize
    ensures count { result ≡ taken_by n rest.now }
    ensures within { result ≤ length rest.now }
{
    match n {
        38 | 48 => colour_len(rest),
        _ => 0,
    }
}

// Sets the colour of characters by the parameters after a 38.
#[inline(never)]
fn set_fg_by(p: &mut Pen, rest: &[u16])
    ensures { p.new ≡ with_fg_colour p.old (colour_of rest.now) }
{
    set_fg_colour(p, colour_of(rest));
}

// Sets the background colour by the parameters after a 48.
#[inline(never)]
fn set_bg_by(p: &mut Pen, rest: &[u16])
    ensures { p.new ≡ with_bg_colour p.old (colour_of rest.now) }
{
    set_bg_colour(p, colour_of(rest));
}

// Gives characters the hue and intensity of the colour, if there is one.
fn set_fg_colour(p: &mut Pen, rgb: Option<(u8, u8, u8)>)
    ensures { p.new ≡ with_fg_colour p.old rgb }
{
    let Some((r, g, b)) = rgb else {
        return;
    };
    match fold_fg(r, g, b) {
        (fg, true) => set_bright(p, fg, Intensity::Bold),
        (fg, false) => set_bright(p, fg, Intensity::Normal),
    }
}

fn set_bg_colour(p: &mut Pen, rgb: Option<(u8, u8, u8)>)
    ensures { p.new ≡ with_bg_colour p.old rgb }
{
    if let Some((r, g, b)) = rgb {
        set_bg(p, fold_bg(r, g, b));
    }
}
