//! The cutting table.

use crate::instr::{Instr, Made};
use crate::piece::Piece;
use crate::why::Why;
use glass_base::{Instance, Memory, Run, append};
use std::alloc::Global;
use std::marker::Model;

/// The cutting table. Contracts see its pile with the top piece first.
#[derive(Drop)]
pub(crate) struct Table {
    /// The pieces on the table, the top one last.
    pile: Run<Piece>,
    /// How many plates were loaded so far.
    loaded: u32,
    /// The pieces that left the table.
    made: Run<Made>,
}

impl Model for Table {
    ghost use Rattle.std.specs.Prelude.{reverse, All};
    ghost use Rattle.cut_sheet.specs.Pieces.{IsOnPlate};
    ghost use Rattle.cut_sheet.specs.Table.{Table as TableOf};

    ghost Value = { TableOf };

    ghost view = { λ t. record { pile = reverse t.pile.items; loaded = t.loaded; made = t.made.items } };

    ghost invariant = { λ t. All IsOnPlate t.pile.items };
}

impl Table {
    ghost use Rattle.std.specs.Prelude.{◌≡◌, IfOk, IsTrue, ◌↔◌, []};
    ghost use Rattle.cut_sheet.specs.Table.{bare, done, load, off, take_off, whole};
    ghost use Rattle.cut_sheet.specs.inner.Steps.{Leads};

    /// An empty table.
    pub(crate) fn new(alloc: Global) -> Table
        ensures { result ≡ bare }
    {
        Table {
            pile: Run::new(alloc),
            loaded: 0,
            made: Run::new(alloc),
        }
    }

    /// Puts a plate on the table.
    fn load(&mut self, instance: &Instance, plate: u32) -> Result<Result<(), Why>, Memory>
        ensures { IfOk result (Leads (load instance.now plate self.old self.old.pile) self.new) }
    {
        if !self.pile.is_empty() {
            return Ok(Err(Why::Loaded));
        }
        if plate != self.loaded || plate >= instance.params().plates {
            return Ok(Err(Why::Plate));
        }
        let piece = Piece {
            plate,
            x: 0,
            y: 0,
            width: instance.width(plate),
            height: instance.params().height,
            level: 0,
            begun: false,
        };
        append(&mut self.pile, piece)?;
        self.loaded += 1;
        Ok(Ok(()))
    }

    /// Cuts a part of this size off the top piece.
    fn off(&mut self, size: u32) -> Result<Result<(), Why>, Memory>
        ensures { IfOk result (Leads (off size self.old self.old.pile) self.new) }
    {
        let Some(top) = self.pile.pop() else {
            return Ok(Err(Why::Bare));
        };
        if top.level == 4 {
            return Ok(Err(Why::Deep));
        }
        if size == 0 || top.side_cut() <= size {
            return Ok(Err(Why::Size));
        }
        append(&mut self.pile, top.without(size))?;
        append(&mut self.pile, top.cut_off(size))?;
        Ok(Ok(()))
    }

    /// Makes the top piece one of the next level.
    fn whole(&mut self) -> Result<Result<(), Why>, Memory>
        ensures { IfOk result (Leads (whole self.old self.old.pile) self.new) }
    {
        let Some(top) = self.pile.pop() else {
            return Ok(Err(Why::Bare));
        };
        if top.level == 4 {
            return Ok(Err(Why::Deep));
        }
        append(&mut self.pile, top.deeper())?;
        Ok(Ok(()))
    }

    /// Takes the top piece off the table, as this type.
    fn take_off(&mut self, kind: i64) -> Result<Result<(), Why>, Memory>
        ensures { IfOk result (Leads (take_off kind self.old self.old.pile) self.new) }
    {
        let Some(top) = self.pile.pop() else {
            return Ok(Err(Why::Bare));
        };
        if top.level == 0 || top.begun {
            return Ok(Err(Why::Begun));
        }
        append(&mut self.made, top.made(kind))?;
        Ok(Ok(()))
    }

    /// Follows an instruction, or tells why it cannot be done; the table is then done with.
    pub(crate) fn follow(
        &mut self,
        instance: &Instance,
        instr: Instr,
    ) -> Result<Result<(), Why>, Memory>
        ensures { IfOk result (Leads (done instance.now self.old instr) self.new) }
    {
        match instr {
            Instr::Load(plate) => self.load(instance, plate),
            Instr::Off(size) => self.off(size),
            Instr::Whole => self.whole(),
            Instr::Done(kind) => self.take_off(kind),
        }
    }

    /// Whether nothing lies on the table.
    pub(crate) fn is_bare(&self) -> bool
        ensures { IsTrue result ↔ (self.now.pile ≡ []) }
    {
        self.pile.is_empty()
    }

    /// The pieces that left the table.
    pub(crate) fn into_made(self) -> Run<Made>
        ensures { result.items ≡ self.made }
    {
        self.made
    }
}
