//! Whether two machines are the same, and the copy of one machine into another one.
ghost use Rattle.std.specs.Prelude.{◌≡◌, IsTrue, OnErr, OnOk};
ghost use Rattle.vt_world.specs.Heard.{without_marks};
ghost use Rattle.vt_world.specs.State.{with_tables};

use crate::World;
use std::alloc::Global;
use vt_base::NoMemory;

impl World {
    /// Whether both machines are the same, except for the marks of the last event. Nothing is proved of
    /// the answer `false`.
    pub fn same(&self, other: &World) -> bool
        ensures { IsTrue result → without_marks self.now ≡ without_marks other.now }
    {
        if !self.same_beside_tables(other) {
            return false;
        }
        if !self.board.tables.same(&other.board.tables) {
            return false;
        }
        true
    }

    /// Whether both machines are the same, except for the marks of the last event and for the key tables,
    /// which it doesn't look at. Nothing is proved of the answer `false`.
    pub fn same_beside_tables(&self, other: &World) -> bool
        ensures { IsTrue result
            → without_marks self.now ≡ without_marks (with_tables self.now.board.tables other.now) }
    {
        if self.size.rows != other.size.rows || self.size.cols != other.size.cols {
            return false;
        }
        if self.trace.hops() != other.trace.hops() {
            return false;
        }
        if !self.switch.same(&other.switch) {
            return false;
        }
        if !self.procs.same(&other.procs) {
            return false;
        }
        if !self.inputs.same(&other.inputs) {
            return false;
        }
        if !self.board.same_keys(&other.board) {
            return false;
        }
        if !self.terminals.same(&other.terminals) {
            return false;
        }
        true
    }

    /// Becomes the other machine. It takes memory only if the key tables aren't the same, or the screens of
    /// this machine aren't those of the same consoles with the same sizes.
    pub fn copy_from(&mut self, alloc: Global, other: &World) -> Result<(), NoMemory>
        ensures ok { OnOk result (self.new ≡ other.now) }
        ensures err { OnErr result (self.new ≡ self.old) }
    {
        if self.board.tables.same(&other.board.tables) {
            return self.copy_beside_tables(alloc, other);
        }
        let tables = other.board.tables.copy(alloc)?;
        self.copy_beside_tables(alloc, other)?;
        self.board.tables = tables;
        Ok(())
    }

    /// Becomes the other machine, but keeps its key tables. It takes memory only if the screens of this
    /// machine aren't those of the same consoles with the same sizes.
    pub fn copy_beside_tables(&mut self, alloc: Global, other: &World) -> Result<(), NoMemory>
        ensures ok { OnOk result (self.new ≡ with_tables self.old.board.tables other.now) }
        ensures err { OnErr result (self.new ≡ self.old) }
    {
        self.terminals.copy_from(alloc, &other.terminals)?;
        self.size = other.size;
        self.switch.copy_from(&other.switch);
        self.procs.copy_from(&other.procs);
        self.inputs.copy_from(&other.inputs);
        self.board.copy_keys_from(&other.board);
        self.trace.copy_from(&other.trace);
        Ok(())
    }
}
