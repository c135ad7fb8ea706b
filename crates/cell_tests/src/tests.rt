//! The mode of UTF-8 that the tests of units and of whole sequences share.
mod cells;
mod chars;
mod checks;
mod dumps;
mod grids;
mod sequences;
mod sgr;
mod units;

use vt_units::Mode;

const UTF8: Mode = Mode {
    utf8: true,
    display: false,
};
