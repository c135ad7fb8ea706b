//! Whether the terminals of two machines are the same, and the copy of one machine's into the other.
ghost use Rattle.std.specs.Prelude.{◌≡◌, Some, None, IfOk, IsTrue, OnErr, OnOk, length};
ghost use Rattle.vt_world.specs.Rooms.{AreHeldBy, HasRoom, HaveRoom, IsHeldBy};

use crate::terminal::Terminal;
use crate::terminals::Terminals;
use std::alloc::Global;
use vt_base::NoMemory;
use vt_grid::Grid;
use vt_screen::BLANK;

impl Terminals {
    /// Whether both are the same. Nothing is proved of the answer `false`.
    pub(crate) fn same(&self, other: &Terminals) -> bool
        ensures { IsTrue result → self.now ≡ other.now }
    {
        are_same_places(self.places.as_slice(), other.places.as_slice())
    }

    /// Becomes the other. It takes memory only if the screens of this one aren't those of the same consoles
    /// with the same sizes.
    pub(crate) fn copy_from(&mut self, alloc: Global, other: &Terminals) -> Result<(), NoMemory>
        ensures ok { OnOk result (self.new ≡ other.now) }
        ensures err { OnErr result (self.new ≡ self.old) }
    {
        if have_room(self.places.as_slice(), other.places.as_slice()) {
            copy_places(self.places.as_mut_slice(), other.places.as_slice());
            return Ok(());
        }
        let mut grids = grids_for(alloc, self.places.as_slice(), other.places.as_slice())?;
        copy_onto(
            self.places.as_mut_slice(),
            grids.as_mut_slice(),
            other.places.as_slice(),
        );
        Ok(())
    }
}

// Whether all places are the same.
fn are_same_places(places: &[Option<Terminal>], others: &[Option<Terminal>]) -> bool
    ensures { IsTrue result → places.now ≡ others.now }
{
    if places.len() != others.len() {
        return false;
    }
    for i in 0..places.len() {
        if !is_same_place(&places[i], &others[i]) {
            return false;
        }
    }
    true
}

// Whether both places have the same terminal, or none.
fn is_same_place(place: &Option<Terminal>, other: &Option<Terminal>) -> bool
    ensures { IsTrue result → place.now ≡ other.now }
{
    match (place, other) {
        (Some(one), Some(two)) => one.same(two),
        (None, None) => true,
        _ => false,
    }
}

// Whether each of the others' screens fits at its place.
fn have_room(places: &[Option<Terminal>], others: &[Option<Terminal>]) -> bool
    requires { length places.now ≡ length others.now }
    ensures { IsTrue result → HaveRoom places.now others.now (length others.now) }
{
    for i in 0..others.len() {
        if !has_room(&places[i], &others[i]) {
            return false;
        }
    }
    true
}

// Whether the other's screen, if it has one, fits at the place.
fn has_room(place: &Option<Terminal>, other: &Option<Terminal>) -> bool
    ensures { IsTrue result → HasRoom place.now other.now }
{
    match (place, other) {
        (Some(own), Some(terminal)) => own.has_size_of(terminal),
        (_, None) => true,
        (None, Some(_)) => false,
    }
}

// All places become the others, whose screens fit.
fn copy_places(places: &mut [Option<Terminal>], others: &[Option<Terminal>])
    requires same { length places.old ≡ length others.now }
    requires room { HaveRoom places.old others.now (length others.now) }
    ensures { places.new ≡ others.now }
{
    for i in 0..others.len() {
        copy_place(&mut places[i], &others[i]);
    }
}

// The place becomes the other one, whose screen fits.
fn copy_place(place: &mut Option<Terminal>, other: &Option<Terminal>)
    requires { HasRoom place.old other.now }
    ensures { place.new ≡ other.now }
{
    match other {
        Some(terminal) => copy_terminal(place, terminal),
        None => free(place),
    }
}

// The place has no terminal then.
fn free(place: &mut Option<Terminal>)
    ensures { place.new ≡ None }
{
    if place.is_some() {
        *place = None;
    }
}

// The terminal of the place becomes the other one, whose screen fits.
fn copy_terminal(place: &mut Option<Terminal>, terminal: &Terminal)
    requires { HasRoom place.old (Some terminal.now) }
    ensures { place.new ≡ Some terminal.now }
{
    if let Some(own) = place {
        own.copy_from(terminal);
    }
}

// A grid for each of the others' screens that doesn't fit at its place.
fn grids_for(
    alloc: Global,
    places: &[Option<Terminal>],
    others: &[Option<Terminal>],
) -> Result<Vec<Option<Grid>>, NoMemory>
    requires { length places.now ≡ length others.now }
    ensures many { IfOk result (λ grids. length grids.items ≡ length others.now) }
    ensures fit { IfOk result (λ grids. AreHeldBy 0 (length others.now) places.now grids.items others.now) }
{
    let mut grids = Vec::with_capacity(alloc, others.len())?;
    for i in 0..others.len() {
        grids.push(grid_for(alloc, &places[i], &others[i])?)?;
    }
    Ok(grids)
}

// A grid for the other's screen, if it has one that doesn't fit at the place.
fn grid_for(
    alloc: Global,
    place: &Option<Terminal>,
    other: &Option<Terminal>,
) -> Result<Option<Grid>, NoMemory>
    ensures { IfOk result (λ grid. IsHeldBy place.now grid other.now) }
{
    if has_room(place, other) {
        return Ok(None);
    }
    match other {
        Some(terminal) => {
            let size = terminal.emu().grid().size();
            Ok(Some(Grid::blank(alloc, size, BLANK)?))
        }
        None => Ok(None),
    }
}

// All places become the others, whose screens fit there or on the grids.
fn copy_onto(
    places: &mut [Option<Terminal>],
    grids: &mut [Option<Grid>],
    others: &[Option<Terminal>],
)
    requires same { length places.old ≡ length others.now }
    requires many { length grids.old ≡ length others.now }
    requires fit { AreHeldBy 0 (length others.now) places.old grids.old others.now }
    ensures { places.new ≡ others.now }
{
    for i in 0..others.len() {
        let grid = grids[i].take();
        put_place(&mut places[i], grid, &others[i]);
    }
}

// The place becomes the other one, whose screen fits there or on the grid.
fn put_place(place: &mut Option<Terminal>, grid: Option<Grid>, other: &Option<Terminal>)
    requires { IsHeldBy place.old grid other.now }
    ensures { place.new ≡ other.now }
{
    match other {
        Some(terminal) => put_terminal(place, grid, terminal),
        None => free(place),
    }
}

// The terminal of the place becomes the other one, on the grid if there is one.
fn put_terminal(place: &mut Option<Terminal>, grid: Option<Grid>, terminal: &Terminal)
    requires { IsHeldBy place.old grid (Some terminal.now) }
    ensures { place.new ≡ Some terminal.now }
{
    match grid {
        Some(grid) => *place = Some(copy_on(grid, terminal)),
        None => copy_terminal(place, terminal),
    }
}

// A copy of the terminal on the grid, which has the size of its screen.
fn copy_on(grid: Grid, terminal: &Terminal) -> Terminal
    requires rows { grid.rows ≡ terminal.now.emu.state.grid.rows }
    requires columns { grid.cols ≡ terminal.now.emu.state.grid.cols }
    ensures { result ≡ terminal.now }
{
    let mut copy = Terminal::new(grid);
    copy.copy_from(terminal);
    copy
}

impl Terminal {
    /// Whether both are the same. Nothing is proved of the answer `false`.
    pub(crate) fn same(&self, other: &Terminal) -> bool
        ensures { IsTrue result → self.now ≡ other.now }
    {
        self.bells() == other.bells() && self.emu().same(other.emu())
    }

    // Whether the other's screen has the size of this one's.
    fn has_size_of(&self, other: &Terminal) -> bool
        ensures rows { IsTrue result → self.now.emu.state.grid.rows ≡ other.now.emu.state.grid.rows }
        ensures columns { IsTrue result → self.now.emu.state.grid.cols ≡ other.now.emu.state.grid.cols }
    {
        let size = self.emu().grid().size();
        let shape = other.emu().grid().size();
        size.rows == shape.rows && size.cols == shape.cols
    }
}
