//! Columns along x, in which a query looks for the defects of a plate.
//!
//! A column holds the positions of the defects whose inside meets it. A query asks about a range of x, and what answers it
//! stands in a column of that range: so it looks at a few defects, and not at all of up to 20,000. It asks each for its plate and
//! its sides, so it does no harm that a column holds others too.

ghost use Rattle.std.specs.Prelude.{◌≡◌, ◌≤◌, ◌<◌, ℕ, ◌^◌, length, slice_get, All, Contains, IfOk, OnOk};
ghost use Rattle.glass_base.specs.Items.{IsDefectInRange};
ghost use Rattle.defect_map.specs.inner.Columns.{column_at as column_of, Stands, KeepsAll, StandsAcross, AllStand};

use glass_base::limits::MOST_DEFECTS;
use glass_base::{Defect, Memory, Run, append};
use smallvec::SmallVec;
use std::alloc::Global;

/// The positions of the defects that meet the inside of a column, in the instance's list. Most columns hold a few.
pub type Column = SmallVec<u32, 4>;

/// How wide a column is, in mm.
const WIDTH: u32 = 256;

/// How many columns a plate has: no plate is wider than 20,000 mm. What lies behind them stands in those of the next plate.
const COUNT: u32 = 80;

/// How many plates have columns of their own: no instance has more. A defect of a plate behind them, which no plan uses,
/// stands in those of a plate before.
const PLATES: u32 = 1000;

/// The number of the column in which x lies on this plate.
pub fn column_at(plate: u32, x: u32) -> usize
    ensures { result ≡ column_of plate x }
{
    (COUNT * (plate % PLATES) + x / WIDTH) as usize
}

/// The columns from the first to the last of these numbers, as far as there are any.
pub fn between(columns: &[Column], first: usize, last: usize) -> &[Column]
    requires { last < 2 ^ 32 }
    ensures { (k : ℕ) (c : _) → first ≤ k → k ≤ last → slice_get columns.now k ≡ Some c
        → Contains result.now c }
{
    let end = columns.len().min(last + 1);
    let start = first.min(end);
    &columns[start..end]
}

/// Appends empty columns until there is one of this number.
fn reach(alloc: Global, columns: &mut Run<Column>, number: usize) -> Result<(), Memory>
    requires { number < 2 ^ 32 }
    ensures within { OnOk result (number < length columns.new.items) }
    ensures kept { OnOk result (KeepsAll columns.old.items columns.new.items) }
{
    for _ in columns.len()..number + 1 {
        append(columns, SmallVec::new(alloc))?;
    }
    Ok(())
}

/// Puts a position into the column of this number, behind what stands there.
fn put(alloc: Global, columns: &mut Run<Column>, number: usize, position: u32) -> Result<(), Memory>
    requires { number < 2 ^ 32 }
    ensures stands { OnOk result (Stands columns.new.items number position) }
    ensures kept { OnOk result (KeepsAll columns.old.items columns.new.items) }
{
    reach(alloc, columns, number)?;
    let mut column = columns.set(number, SmallVec::new(alloc));
    column.push(position)?;
    let _empty = columns.set(number, column);
    Ok(())
}

/// Puts the position of a defect into each column that its inside meets.
fn put_across(
    alloc: Global,
    columns: &mut Run<Column>,
    position: u32,
    d: &Defect,
) -> Result<(), Memory>
    requires { IsDefectInRange d.now }
    ensures stands { OnOk result (StandsAcross columns.new.items d.now position) }
    ensures kept { OnOk result (KeepsAll columns.old.items columns.new.items) }
{
    for number in column_at(d.plate, d.x0)..column_at(d.plate, d.x1 - 1) + 1 {
        put(alloc, columns, number, position)?;
    }
    Ok(())
}

/// The columns of all plates: each defect's position stands in each column that the defect's inside meets.
pub fn columns_of(alloc: Global, defects: &[Defect]) -> Result<Run<Column>, Memory>
    requires few { length defects.now ≤ MOST_DEFECTS }
    requires ranges { All IsDefectInRange defects.now }
    ensures { IfOk result (λ columns. AllStand defects.now columns.items (length defects.now)) }
{
    let mut columns = Run::new(alloc);
    for (position, d) in defects.iter().enumerate() {
        put_across(alloc, &mut columns, position as u32, d)?;
    }
    Ok(columns)
}
