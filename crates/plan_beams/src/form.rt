//! The cells that may come next.

use crate::chains::Chains;
use crate::ledger::Ledger;
use crate::measure::{Amount, Length};
use crate::node::{Candidate, LaidCell, LaidItem};
use crate::shapes::Cell;
use crate::stock::StockItem;
use crate::task::Task;
use glass_base::Memory;
use std::alloc::Global;

/// At most so many partners of one form in pairs.
const MOST_PARTNERS: u32 = 6;

/// One next item as a cell, or two of the same width one over the other. All lengths are in mm.
#[derive(Clone, Copy)]
pub struct CellForm {
    pub part: LaidItem,
    pub above: Option<LaidItem>,
    pub width: Length,
    pub height: Length,
    pub area: Amount,
    pub value: Amount,
    pub mix: u64,
    /// What the waste and the charge of its children have to be below together, in 1/1024 mm².
    pub limit: Amount,
    /// Whether no looser place is to be tried.
    pub done: bool,
    /// Whether the item behind its own in the stack has a side of its width.
    pairs: bool,
}

/// The forms of a node.
#[derive(Drop)]
pub struct Forms {
    pub list: Vec<CellForm>,
    /// The greatest of their limits.
    pub limit: Amount,
    /// The forms of one item, by their widths.
    widths: Chains,
}

/// The node that is expanded: its sums, how many items of each stack are cut, and where it comes from.
#[derive(Clone, Copy)]
pub struct Base<'b> {
    pub candidate: &'b Candidate,
    pub places: &'b [u16],
    /// The nodes before it.
    pub arena: &'b [LaidCell],
    /// Its place behind them; none at the start.
    pub parent: Option<u32>,
}

impl CellForm {
    /// How many items it has.
    pub fn items(&self) -> u16 {
        if self.above.is_some() { 2 } else { 1 }
    }

    /// The cell that begins at `e`.
    pub fn cell(&self, e: Length, lifted: bool) -> Cell {
        Cell {
            e,
            width: self.width,
            height: self.height,
            two: self.above.is_some(),
            lifted,
        }
    }
}

impl Base<'_> {
    /// The limit of a form of so many items and this value.
    fn limit(&self, task: &Task, ledger: &Ledger, more: u16, value: Amount) -> Amount {
        ledger.limit(task, more, self.candidate.value + value)
    }
}

/// The form `under` with the item of the form `over` above its own.
fn stacked(
    task: &Task,
    ledger: &Ledger,
    base: &Base,
    under: &CellForm,
    over: &CellForm,
) -> CellForm {
    let value = under.value + over.value;
    CellForm {
        above: Some(over.part),
        height: under.height + over.height,
        area: under.area + over.area,
        value,
        mix: under.mix.wrapping_add(over.mix),
        limit: base.limit(task, ledger, 2, value),
        ..*under
    }
}

/// The form of an item that lies over that of `under`, which is of the same stack.
fn upper(under: &CellForm, piece: StockItem, turned: bool) -> CellForm {
    let (width, height) = piece.sides(turned);
    CellForm {
        part: LaidItem {
            stack: under.part.stack,
            turned,
        },
        width,
        height,
        area: piece.area,
        value: piece.value,
        ..*under
    }
}

impl Forms {
    /// No forms; there will be none wider than `most`.
    pub fn new(alloc: Global, most: Length) -> Result<Forms, Memory> {
        Ok(Forms {
            list: Vec::new(alloc),
            limit: Amount::ZERO,
            widths: Chains::new(alloc, (most.0 as usize).saturating_add(1))?,
        })
    }

    /// Notes all cells that may come next: the next item of each stack, then pairs from one stack, then pairs from two.
    pub fn note(&mut self, task: &Task, ledger: &Ledger, base: &Base) -> Result<(), Memory> {
        self.list.clear();
        self.limit = Amount::ZERO;
        self.note_singles(task, ledger, base)?;
        let singles = self.list.len();
        self.note_pairs_of_stacks(task, ledger, base, singles)?;
        self.widths.clear();
        self.note_pairs(task, ledger, base, singles)
    }

    /// Adds a form.
    fn add(&mut self, form: &CellForm) -> Result<(), Memory> {
        self.limit = self.limit.max(form.limit);
        self.list.push(*form)?;
        Ok(())
    }

    /// Notes the next item of each stack, in both turns.
    fn note_singles(&mut self, task: &Task, ledger: &Ledger, base: &Base) -> Result<(), Memory> {
        let stacks = task.stock.stacks.iter().zip(base.places.iter());
        for (number, (stack, place)) in stacks.enumerate() {
            if let Some(piece) = stack.pieces.get(usize::from(*place)) {
                let limit = base.limit(task, ledger, 1, piece.value);
                let stack_number = number.min(65_535) as u16;
                let form = CellForm {
                    part: LaidItem {
                        stack: stack_number,
                        turned: false,
                    },
                    above: None,
                    width: piece.length,
                    height: piece.width,
                    area: piece.area,
                    value: piece.value,
                    mix: stack.mix,
                    limit,
                    done: false,
                    pairs: piece.pairs_length,
                };
                self.note_turns(task, &form, piece.pairs_width)?;
            }
        }
        Ok(())
    }

    /// Notes the form of an item, and where it is no square turned too, where `pairs` is as the turned one has it.
    fn note_turns(&mut self, task: &Task, form: &CellForm, pairs: bool) -> Result<(), Memory> {
        self.note_single(task, form)?;
        if form.width == form.height {
            return Ok(());
        }
        let turned = CellForm {
            part: LaidItem {
                stack: form.part.stack,
                turned: true,
            },
            width: form.height,
            height: form.width,
            pairs,
            ..*form
        };
        self.note_single(task, &turned)
    }

    fn note_single(&mut self, task: &Task, form: &CellForm) -> Result<(), Memory> {
        if form.width <= task.sheet.max1 && form.height <= task.sheet.high {
            self.add(form)?;
        }
        Ok(())
    }

    /// Notes pairs of the next two items of a stack.
    fn note_pairs_of_stacks(
        &mut self,
        task: &Task,
        ledger: &Ledger,
        base: &Base,
        singles: usize,
    ) -> Result<(), Memory> {
        for place in 0..singles {
            if let Some(under) = self.list.get(place).copied() {
                if under.pairs {
                    self.note_pairs_with_next(task, ledger, base, &under)?;
                }
            }
        }
        Ok(())
    }

    /// Notes the second next item of a stack over the next one, in both turns.
    fn note_pairs_with_next(
        &mut self,
        task: &Task,
        ledger: &Ledger,
        base: &Base,
        under: &CellForm,
    ) -> Result<(), Memory> {
        let stack = usize::from(under.part.stack);
        let Some(piece) = task.stock.second(stack, base.places) else {
            return Ok(());
        };
        let over = upper(under, piece, false);
        self.note_pair(task, ledger, base, under, &over)?;
        if piece.length == piece.width {
            return Ok(());
        }
        let turned = upper(under, piece, true);
        self.note_pair(task, ledger, base, under, &turned)
    }

    /// Notes one item over another, where they have one width and are not too high.
    fn note_pair(
        &mut self,
        task: &Task,
        ledger: &Ledger,
        base: &Base,
        under: &CellForm,
        over: &CellForm,
    ) -> Result<(), Memory> {
        if over.width == under.width && under.height + over.height <= task.sheet.high {
            self.add(&stacked(task, ledger, base, under, over))?;
        }
        Ok(())
    }

    /// Notes pairs from two stacks.
    fn note_pairs(
        &mut self,
        task: &Task,
        ledger: &Ledger,
        base: &Base,
        singles: usize,
    ) -> Result<(), Memory> {
        for place in 0..singles {
            if let Some(over) = self.list.get(place).copied() {
                self.note_partners(task, ledger, base, &over)?;
                self.widths.push(over.width.0 as usize)?;
            }
        }
        Ok(())
    }

    /// Notes a form over each of the last forms before it that have its width and are of other stacks.
    fn note_partners(
        &mut self,
        task: &Task,
        ledger: &Ledger,
        base: &Base,
        over: &CellForm,
    ) -> Result<(), Memory> {
        let mut partner = self.widths.last(over.width.0 as usize);
        for _ in 0..MOST_PARTNERS {
            let Some(place) = partner else {
                return Ok(());
            };
            if let Some(under) = self.list.get(place as usize).copied() {
                if under.part.stack != over.part.stack {
                    self.note_pair(task, ledger, base, &under, over)?;
                }
            }
            partner = self.widths.before(place);
        }
        Ok(())
    }
}
