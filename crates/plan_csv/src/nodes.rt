//! The rows that were read so far, by their node numbers.

ghost use Rattle.std.specs.Prelude.{◌≡◌, ◌+◌, ◌≤◌, ◌++◌, [], ◌∷◌, OnOk};
ghost use Rattle.std.specs.BTreeMap.{get};
ghost use Rattle.std.specs.Ordering.{nat_cmp};
ghost use Rattle.plan_csv.specs.inner.ReadNodes.{AreNodes, HasGained, HasNewChild, HasSpace, MayFollow, IsAttached, side_filled};

use cut_model::Row;
use glass_base::limits::MOST_SIDE;
use glass_base::{Memory, Run, append};
use std::alloc::Global;
use std::collections::BTreeMap;

/// What is kept of a row.
#[derive(Drop)]
pub struct KeptRow {
    pub row: Row,
    /// The sum of its children's sizes in the direction of the cut, in mm.
    pub filled: u32,
    /// Its children, in the order of the text.
    pub children: Run<Row>,
}

/// The rows that were read so far.
#[derive(Drop)]
pub struct Nodes {
    pub rows: Run<Row>,
    pub plates: Run<Row>,
    /// What is kept of each row, by its node number.
    pub named: BTreeMap<u64, KeptRow>,
}

/// The side of a row by which it fills its parent, in mm.
pub fn side_of(row: &Row) -> u32
    ensures { result ≡ side_filled row.now }
{
    match row.cut {
        0 => 0,
        1 => row.width,
        2 => row.height,
        3 => row.width,
        _ => row.height,
    }
}

/// Adds a child to a node.
fn add(node: &mut KeptRow, row: &Row) -> Result<(), Memory>
    requires { node.old.filled + side_filled row.now ≤ MOST_SIDE }
    ensures { OnOk result (HasGained row.now node.old node.new) }
{
    append(&mut node.children, *row)?;
    node.filled += side_of(row);
    Ok(())
}

/// Adds a child to the node of this number, which is kept and has room for it.
fn add_child(named: &mut BTreeMap<u64, KeptRow>, parent: u64, row: &Row) -> Result<(), Memory>
    requires { HasSpace row.now (get nat_cmp named.old parent) }
    ensures { OnOk result (HasNewChild row.now parent (get nat_cmp named.old)
        (get nat_cmp named.new)) }
{
    match named.get_mut(&parent) {
        Some(node) => add(node, row),
        None => unreachable!(),
    }
}

impl Nodes {
    /// No row.
    pub fn new(alloc: Global) -> Nodes
        ensures rows { result.rows.items ≡ [] }
        ensures nodes { AreNodes result }
    {
        Nodes {
            rows: Run::new(alloc),
            plates: Run::new(alloc),
            named: BTreeMap::new(alloc),
        }
    }

    /// Puts a row among the plates, or among the children of its parent.
    fn attach(&mut self, row: &Row) -> Result<(), Memory>
        requires nodes { AreNodes self.old }
        requires allowed { MayFollow self.old.rows.items row.now }
        ensures rows { OnOk result (self.new.rows.items ≡ self.old.rows.items) }
        ensures attached { OnOk result (IsAttached row.now row.now.parent self.old self.new) }
    {
        match row.parent {
            None => append(&mut self.plates, *row),
            Some(parent) => add_child(&mut self.named, parent, row),
        }
    }

    /// Adds a row.
    pub fn push(&mut self, alloc: Global, row: &Row) -> Result<(), Memory>
        requires nodes { AreNodes self.old }
        requires allowed { MayFollow self.old.rows.items row.now }
        ensures rows { OnOk result (self.new.rows.items ≡ self.old.rows.items ++ row.now ∷ []) }
        ensures nodes { OnOk result (AreNodes self.new) }
    {
        self.attach(row)?;
        let node = KeptRow {
            row: *row,
            filled: 0,
            children: Run::new(alloc),
        };
        match self.named.insert(row.node, node) {
            Ok(_) => append(&mut self.rows, *row),
            Err(_) => Err(Memory),
        }
    }
}
