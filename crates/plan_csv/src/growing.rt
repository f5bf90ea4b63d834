//! The plan of rows that were read: a piece for each row, with the pieces that are cut from it.

ghost use Rattle.std.specs.Prelude.{◌≡◌, ◌+◌, true, All, IfOk, Some};
ghost use Rattle.cut_model.specs.Parents.{rows_in};
ghost use Rattle.cut_model.specs.Tree.{bands as bands_tree, cells as cells_tree, inner1, inner2, inner3, plates_of as plates_tree, sort1, sort2, sort3, sort4, strips as strips_tree, tree, sort_named, IsRowType};
ghost use Rattle.plan_csv.specs.PlanTexts.{grown, names_branch, tree_of};
ghost use Rattle.plan_csv.specs.inner.ReadNodes.{AreNodes, HaveTwo, IsGrown, IsLeaf, IsPiece, IsRoot, below, row_with};

use crate::nodes::Nodes;
use cut_model::{
    Body1, Body2, Body3, Body4, Leaf4, Piece1, Piece2, Piece3, Plan, Plate, Row, Sort,
};
use glass_base::{Memory, Run, append};
use std::alloc::Global;

/// The children of a row.
fn children_of<'a>(nodes: &'a Nodes, row: &Row) -> &'a [Row]
    requires nodes { AreNodes nodes.now }
    requires known { row_with row.now.node nodes.now.rows.items ≡ Some row.now }
    ensures are { result.now ≡ rows_in row.now.node nodes.now.rows.items }
    ensures pieces { All (IsPiece nodes.now.rows.items (row.now.cut + 1)) result.now }
{
    match nodes.named.get(&row.node) {
        Some(node) => node.children.as_slice(),
        None => &[],
    }
}

/// The leaf of a row.
fn leaf_of(row: &Row) -> Leaf4
    requires { IsLeaf row.now }
    ensures size { result.height ≡ row.now.height }
    ensures sort { sort4 result.body ≡ sort_named row.now.kind }
{
    let body = match row.sort() {
        Sort::Item(number) => Body4::Item(number),
        Sort::Waste => Body4::Waste,
        Sort::Branch => unreachable!(),
        Sort::Residual => unreachable!(),
    };
    Leaf4 {
        height: row.height,
        body,
    }
}

/// The two leaves of a row that is a cell and is cut.
fn two_leaves(nodes: &Nodes, row: &Row) -> Body3
    requires nodes { AreNodes nodes.now }
    requires cells { HaveTwo nodes.now.rows.items }
    requires piece { IsPiece nodes.now.rows.items 3 row.now }
    requires branch { names_branch row.now.kind ≡ true }
    ensures sort { sort3 result ≡ Sort.Branch }
    ensures inner { inner3 result ≡ below 1 nodes.now.rows.items row.now }
{
    let children = children_of(nodes, row);
    Body3::Two(leaf_of(&children[0]), leaf_of(&children[1]))
}

/// What becomes of a row that is a cell.
fn cell_body(nodes: &Nodes, row: &Row) -> Body3
    requires nodes { AreNodes nodes.now }
    requires cells { HaveTwo nodes.now.rows.items }
    requires piece { IsPiece nodes.now.rows.items 3 row.now }
    ensures sort { sort3 result ≡ sort_named row.now.kind }
    ensures inner { inner3 result ≡ below 1 nodes.now.rows.items row.now }
{
    match row.sort() {
        Sort::Item(number) => Body3::Item(number),
        Sort::Waste => Body3::Waste,
        Sort::Branch => two_leaves(nodes, row),
        Sort::Residual => unreachable!(),
    }
}

/// The cell of a row.
fn cell_of(nodes: &Nodes, row: &Row) -> Piece3
    requires nodes { AreNodes nodes.now }
    requires cells { HaveTwo nodes.now.rows.items }
    requires piece { IsPiece nodes.now.rows.items 3 row.now }
    ensures { IsGrown (below 1 nodes.now.rows.items) row.now result.width (sort3 result.body)
        (inner3 result.body) }
{
    Piece3 {
        width: row.width,
        body: cell_body(nodes, row),
    }
}

/// The cells of these rows.
fn cells_of(alloc: Global, nodes: &Nodes, rows: &[Row]) -> Result<Run<Piece3>, Memory>
    requires nodes { AreNodes nodes.now }
    requires cells { HaveTwo nodes.now.rows.items }
    requires pieces { All (IsPiece nodes.now.rows.items 3) rows.now }
    ensures { IfOk result (λ run. cells_tree run.items ≡ grown 1 nodes.now.rows.items rows.now) }
{
    let mut cells = Run::new(alloc);
    for row in rows {
        append(&mut cells, cell_of(nodes, row))?;
    }
    Ok(cells)
}

/// What becomes of a row that is a band.
fn band_body(alloc: Global, nodes: &Nodes, row: &Row) -> Result<Body2, Memory>
    requires nodes { AreNodes nodes.now }
    requires cells { HaveTwo nodes.now.rows.items }
    requires piece { IsPiece nodes.now.rows.items 2 row.now }
    ensures sort { IfOk result (λ body. sort2 body ≡ sort_named row.now.kind) }
    ensures inner { IfOk result (λ body. inner2 body ≡ below 2 nodes.now.rows.items row.now) }
{
    match row.sort() {
        Sort::Item(number) => Ok(Body2::Item(number)),
        Sort::Waste => Ok(Body2::Waste),
        Sort::Branch => Ok(Body2::Cut(cells_of(alloc, nodes, children_of(nodes, row))?)),
        Sort::Residual => unreachable!(),
    }
}

/// The band of a row.
fn band_of(alloc: Global, nodes: &Nodes, row: &Row) -> Result<Piece2, Memory>
    requires nodes { AreNodes nodes.now }
    requires cells { HaveTwo nodes.now.rows.items }
    requires piece { IsPiece nodes.now.rows.items 2 row.now }
    ensures { IfOk result (λ p. IsGrown (below 2 nodes.now.rows.items) row.now p.height
        (sort2 p.body) (inner2 p.body)) }
{
    let body = band_body(alloc, nodes, row)?;
    Ok(Piece2 {
        height: row.height,
        body,
    })
}

/// The bands of these rows.
fn bands_of(alloc: Global, nodes: &Nodes, rows: &[Row]) -> Result<Run<Piece2>, Memory>
    requires nodes { AreNodes nodes.now }
    requires cells { HaveTwo nodes.now.rows.items }
    requires pieces { All (IsPiece nodes.now.rows.items 2) rows.now }
    ensures { IfOk result (λ run. bands_tree run.items ≡ grown 2 nodes.now.rows.items rows.now) }
{
    let mut bands = Run::new(alloc);
    for row in rows {
        append(&mut bands, band_of(alloc, nodes, row)?)?;
    }
    Ok(bands)
}

/// What becomes of a row that is a strip.
fn strip_body(alloc: Global, nodes: &Nodes, row: &Row) -> Result<Body1, Memory>
    requires nodes { AreNodes nodes.now }
    requires cells { HaveTwo nodes.now.rows.items }
    requires piece { IsPiece nodes.now.rows.items 1 row.now }
    ensures sort { IfOk result (λ body. sort1 body ≡ sort_named row.now.kind) }
    ensures inner { IfOk result (λ body. inner1 body ≡ below 3 nodes.now.rows.items row.now) }
{
    match row.sort() {
        Sort::Item(number) => Ok(Body1::Item(number)),
        Sort::Waste => Ok(Body1::Waste),
        Sort::Residual => Ok(Body1::Residual),
        Sort::Branch => Ok(Body1::Cut(bands_of(alloc, nodes, children_of(nodes, row))?)),
    }
}

/// The strip of a row.
fn strip_of(alloc: Global, nodes: &Nodes, row: &Row) -> Result<Piece1, Memory>
    requires nodes { AreNodes nodes.now }
    requires cells { HaveTwo nodes.now.rows.items }
    requires piece { IsPiece nodes.now.rows.items 1 row.now }
    ensures { IfOk result (λ p. IsGrown (below 3 nodes.now.rows.items) row.now p.width
        (sort1 p.body) (inner1 p.body)) }
{
    let body = strip_body(alloc, nodes, row)?;
    Ok(Piece1 {
        width: row.width,
        body,
    })
}

/// The strips of these rows.
fn strips_of(alloc: Global, nodes: &Nodes, rows: &[Row]) -> Result<Run<Piece1>, Memory>
    requires nodes { AreNodes nodes.now }
    requires cells { HaveTwo nodes.now.rows.items }
    requires pieces { All (IsPiece nodes.now.rows.items 1) rows.now }
    ensures { IfOk result (λ run. strips_tree run.items ≡ grown 3 nodes.now.rows.items rows.now) }
{
    let mut strips = Run::new(alloc);
    for row in rows {
        append(&mut strips, strip_of(alloc, nodes, row)?)?;
    }
    Ok(strips)
}

/// The plate of a row.
fn plate_of(alloc: Global, nodes: &Nodes, row: &Row) -> Result<Plate, Memory>
    requires nodes { AreNodes nodes.now }
    requires cells { HaveTwo nodes.now.rows.items }
    requires root { IsRoot nodes.now.rows.items row.now }
    ensures { IfOk result (λ p. IsGrown (below 4 nodes.now.rows.items) row.now 0 Sort.Branch
        (strips_tree p.pieces.items)) }
{
    let pieces = strips_of(alloc, nodes, children_of(nodes, row))?;
    Ok(Plate { pieces })
}

/// The plates of these rows.
fn plates_of(alloc: Global, nodes: &Nodes, rows: &[Row]) -> Result<Run<Plate>, Memory>
    requires nodes { AreNodes nodes.now }
    requires cells { HaveTwo nodes.now.rows.items }
    requires roots { All (IsRoot nodes.now.rows.items) rows.now }
    ensures { IfOk result (λ run. plates_tree run.items ≡ grown 4 nodes.now.rows.items rows.now) }
{
    let mut plates = Run::new(alloc);
    for row in rows {
        append(&mut plates, plate_of(alloc, nodes, row)?)?;
    }
    Ok(plates)
}

/// The plan of all rows.
pub fn plan_of(alloc: Global, nodes: &Nodes) -> Result<Plan, Memory>
    requires nodes { AreNodes nodes.now }
    requires cells { HaveTwo nodes.now.rows.items }
    ensures { IfOk result (λ plan. tree plan ≡ tree_of nodes.now.rows.items) }
{
    let plates = plates_of(alloc, nodes, nodes.plates.as_slice())?;
    Ok(Plan { plates })
}
