//! What a plan cuts: its items in cutting order, and its plates.

ghost use Rattle.std.specs.Prelude.{◌≡◌, ◌++◌, map, IfOk};
ghost use Rattle.cut_model.specs.Families.{rows_of};
ghost use Rattle.cut_model.specs.Fits.{Fits};
ghost use Rattle.cut_model.specs.Lawful.{plate_rows};
ghost use Rattle.cut_model.specs.Tree.{tree};
ghost use Rattle.stack_order.specs.Cuts.{cuts_of};

use cut_model::{Family, Plan, Row, Sort, Visitor, item_numbered, walk};
use glass_base::{Instance, Item, Memory, Run, append};
use std::alloc::Global;

/// An item that is cut.
#[derive(Clone, Copy)]
pub struct ItemCut {
    /// The number of its plate, from 0.
    pub plate: u32,
    /// Its node number.
    pub node: u64,
    /// The item's number.
    pub number: u32,
    /// The item of the batch with this number, if the batch has it.
    pub item: Option<Item>,
}

/// The items and the plates told so far.
#[derive(Drop)]
struct ItemsTold<'a> {
    items: &'a [Item],
    cuts: Run<ItemCut>,
    plates: Run<Row>,
}

impl<'a> Visitor for ItemsTold<'a> {
    type Stop = Memory;

    ghost has_seen = { λ start now seen.
        (now.items.now ≡ start.items.now)
        × (now.cuts.items ≡ start.cuts.items ++ cuts_of start.items.now (map (λ f. f.row) seen))
        × (now.plates.items ≡ start.plates.items ++ plate_rows (map (λ f. f.row) seen)) };

    fn visit(&mut self, family: &Family) -> Result<(), Memory> {
        let row = family.row;
        if let Sort::Item(number) = family.sort {
            let cut = ItemCut {
                plate: row.plate,
                node: row.node,
                number,
                item: item_numbered(self.items, number),
            };
            append(&mut self.cuts, cut)?;
        }
        if row.cut == 0 {
            append(&mut self.plates, row)?;
        }
        Ok(())
    }
}

/// What a plan cuts, in cutting order.
#[derive(Drop)]
pub struct CutItems {
    pub cuts: Run<ItemCut>,
    /// The rows of its plates.
    pub plates: Run<Row>,
}

/// What a plan cuts. It fails only where memory runs out.
pub fn gather(alloc: Global, instance: &Instance, plan: &Plan) -> Result<CutItems, Memory>
    requires { Fits (tree plan.now) }
    ensures cuts { let b = instance.now in IfOk result (λ g. g.cuts.items
        ≡ cuts_of b.items (rows_of b (tree plan.now))) }
    ensures plates { let b = instance.now in IfOk result (λ g. g.plates.items
        ≡ plate_rows (rows_of b (tree plan.now))) }
{
    let mut gathering = ItemsTold {
        items: instance.items(),
        cuts: Run::new(alloc),
        plates: Run::new(alloc),
    };
    walk(&mut gathering, instance, plan)?;
    let ItemsTold { cuts, plates, .. } = gathering;
    Ok(CutItems { cuts, plates })
}
