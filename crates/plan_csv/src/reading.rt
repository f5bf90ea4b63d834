//! The plan of a solution text.

ghost use Rattle.std.specs.Prelude.{◌≡◌, ◌<◌, ◌≤◌, ◌^◌, ◌==◌, ◌&&◌, ◌||◌, not, [], drop, length, IfOk, MatchResult};
ghost use Rattle.csv.specs.Records.{fields_of};
ghost use Rattle.csv_table.specs.Rows.{table_rows};
ghost use Rattle.cut_model.specs.Fits.{Fits};
ghost use Rattle.cut_model.specs.Parents.{rows_in};
ghost use Rattle.cut_model.specs.Tree.{count, tree};
ghost use Rattle.plan_csv.specs.PlanTexts.{Reads, cell_refusal, names_branch, plan_said, rows_behind, rows_said};
ghost use Rattle.plan_csv.specs.inner.ReadNodes.{AreNodes, HasRead, HaveTwo, Refused, rows_with};

use crate::bad_plan::BadPlan;
use crate::checks::{is_branch, refusal};
use crate::fields::row_of;
use crate::growing::plan_of;
use crate::nodes::Nodes;
use csv::ByteRecord;
use csv_table::Rows;
use cut_model::{Plan, Row};
use glass_base::Instance;
use std::alloc::Global;

/// Reads one row.
fn read_row(
    alloc: Global,
    instance: &Instance,
    nodes: &mut Nodes,
    row: u64,
    fields: &ByteRecord,
) -> Result<(), BadPlan>
    requires { AreNodes nodes.old }
    ensures { MatchResult result (λ _. HasRead
        (rows_with instance.now row nodes.old.rows.items (fields_of fields.now)) nodes.new)
        (λ e. Refused e (rows_with instance.now row nodes.old.rows.items (fields_of fields.now))) }
{
    let r = row_of(row, fields)?;
    match refusal(instance, row, nodes, &r) {
        Some(refused) => Err(refused),
        None => {
            nodes.push(alloc, &r)?;
            Ok(())
        }
    }
}

/// Reads all rows of a table. The first one is the header.
fn nodes_in(alloc: Global, instance: &Instance, rows: &mut Rows<'_>) -> Result<Nodes, BadPlan>
    requires few { length rows.old < 2 ^ 63 }
    ensures { MatchResult result (HasRead (rows_behind instance.now 2 [] (drop 1 rows.old)))
        (λ e. Refused e (rows_behind instance.now 2 [] (drop 1 rows.old))) }
{
    let mut nodes = Nodes::new(alloc);
    let mut row = 1u64;
    rows.next_row()?;
    'rows: while let Some(fields) = rows.next_row()? {
        row += 1;
        read_row(alloc, instance, &mut nodes, row, &fields)?;
    }
    Ok(nodes)
}

/// Reads all rows of a text.
fn read_rows(alloc: Global, instance: &Instance, bytes: &[u8]) -> Result<Nodes, BadPlan>
    ensures { MatchResult result (HasRead (rows_behind instance.now 2 []
        (drop 1 (table_rows bytes.now))))
        (λ e. Refused e (rows_behind instance.now 2 [] (drop 1 (table_rows bytes.now)))) }
{
    let mut rows = Rows::new(alloc, bytes);
    nodes_in(alloc, instance, &mut rows)
}

/// How many children a row has.
fn child_count(nodes: &Nodes, row: &Row) -> usize
    requires { AreNodes nodes.now }
    ensures { result ≡ length (rows_in row.now.node nodes.now.rows.items) }
{
    match nodes.named.get(&row.node) {
        Some(node) => node.children.len(),
        None => 0,
    }
}

/// Whether a row is no piece of a 3-cut that is cut, or has two children.
fn has_two(nodes: &Nodes, row: &Row) -> bool
    requires { AreNodes nodes.now }
    ensures { result ≡ (not ((row.now.cut == 3) && names_branch row.now.kind) ||
        (length (rows_in row.now.node nodes.now.rows.items) == 2)) }
{
    !(row.cut == 3 && is_branch(row.kind)) || child_count(nodes, row) == 2
}

/// Why a piece of a 3-cut that is cut is refused once all rows are read.
fn refused_cell(nodes: &Nodes) -> Option<BadPlan>
    requires { AreNodes nodes.now }
    ensures { result ≡ cell_refusal nodes.now.rows.items 2 nodes.now.rows.items }
{
    for (place, row) in nodes.rows.as_slice().iter().enumerate() {
        if !has_two(nodes, row) {
            return Some(BadPlan::Kind(place as u64 + 2));
        }
    }
    None
}

/// Reads the rows of a plan.
fn read_nodes(alloc: Global, instance: &Instance, bytes: &[u8]) -> Result<Nodes, BadPlan>
    ensures said { MatchResult result (HasRead (rows_said instance.now bytes.now))
        (λ e. Refused e (rows_said instance.now bytes.now)) }
    ensures cells { IfOk result (λ nodes. HaveTwo nodes.rows.items) }
{
    let nodes = read_rows(alloc, instance, bytes)?;
    match refused_cell(&nodes) {
        Some(refused) => Err(refused),
        None => Ok(nodes),
    }
}

/// The plan that a solution text says, or the first refusal.
pub fn read_plan(alloc: Global, instance: &Instance, bytes: &[u8]) -> Result<Plan, BadPlan>
    ensures plan { Reads result (plan_said instance.now bytes.now) }
    ensures fits { IfOk result (λ plan. Fits (tree plan)) }
    ensures few { IfOk result (λ plan. count (tree plan) ≤ 1000000000) }
    ensures fewer_than_bytes { IfOk result (λ plan. count (tree plan) ≤ length bytes.now) }
{
    let nodes = read_nodes(alloc, instance, bytes)?;
    Ok(plan_of(alloc, &nodes)?)
}
