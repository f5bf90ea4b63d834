//! Why a row is refused behind the rows that were read before it.

ghost use Rattle.std.specs.Prelude.{◌≡◌};
ghost use Rattle.cut_model.specs.Loss.{names_residual};
ghost use Rattle.plan_csv.specs.PlanTexts.{child_refusal as child_refusal_of, names_branch, piece_refusal as piece_refusal_of, place_refusal as place_refusal_of, plate_refusal as plate_refusal_of, row_refusal, side_refusal as side_refusal_of, lies as lies_of};
ghost use Rattle.plan_csv.specs.inner.ReadNodes.{AreNodes, row_with};

use crate::bad_plan::BadPlan;
use crate::nodes::Nodes;
use cut_model::{Along, Row, Sort};
use glass_base::Instance;
use glass_base::limits::MOST_SIDE;

/// Whether a type is that of a plate or a piece that is cut.
pub fn is_branch(kind: i64) -> bool
    ensures { result ≡ names_branch kind }
{
    kind == Sort::Branch.kind()
}

/// Whether a type is that of the residual.
fn is_residual(kind: i64) -> bool
    ensures { result ≡ names_residual kind }
{
    kind == Sort::Residual.kind()
}

/// How the pieces that a cut of this level makes lie.
fn lies(cut: u32) -> Along
    ensures { result ≡ lies_of cut }
{
    match cut {
        0 => Along::Plates,
        1 => Along::X,
        2 => Along::Y,
        3 => Along::X,
        _ => Along::Y,
    }
}

/// Why a plate is refused.
fn plate_refusal(instance: &Instance, row: u64, nodes: &Nodes, r: &Row) -> Option<BadPlan>
    requires { AreNodes nodes.now }
    ensures { result ≡ plate_refusal_of instance.now row nodes.now.rows.items r.now }
{
    if u64::from(r.plate) != nodes.plates.len() as u64 {
        return Some(BadPlan::Level(row, 0));
    }
    if !is_branch(r.kind) {
        return Some(BadPlan::Kind(row));
    }
    if r.x != 0 {
        return Some(BadPlan::Size(row, 3));
    }
    if r.y != 0 {
        return Some(BadPlan::Size(row, 4));
    }
    if r.width != instance.width(r.plate) {
        return Some(BadPlan::Size(row, 5));
    }
    if r.height != instance.params().height {
        return Some(BadPlan::Size(row, 6));
    }
    None
}

/// Why the sides of a piece are refused that lies beside its neighbours.
fn width_refusal(row: u64, filled: u32, e: &Row, r: &Row) -> Option<BadPlan>
    ensures { result ≡ side_refusal_of row filled e.now r.now Along.X }
{
    if u64::from(r.x) != u64::from(e.x) + u64::from(filled) {
        return Some(BadPlan::Size(row, 3));
    }
    if r.y != e.y {
        return Some(BadPlan::Size(row, 4));
    }
    if r.height != e.height {
        return Some(BadPlan::Size(row, 6));
    }
    if u64::from(filled) + u64::from(r.width) > u64::from(MOST_SIDE) {
        return Some(BadPlan::Size(row, 5));
    }
    None
}

/// Why the sides of a piece are refused that lies over its neighbours.
fn height_refusal(row: u64, filled: u32, e: &Row, r: &Row) -> Option<BadPlan>
    ensures { result ≡ side_refusal_of row filled e.now r.now Along.Y }
{
    if r.x != e.x {
        return Some(BadPlan::Size(row, 3));
    }
    if u64::from(r.y) != u64::from(e.y) + u64::from(filled) {
        return Some(BadPlan::Size(row, 4));
    }
    if r.width != e.width {
        return Some(BadPlan::Size(row, 5));
    }
    if u64::from(filled) + u64::from(r.height) > u64::from(MOST_SIDE) {
        return Some(BadPlan::Size(row, 6));
    }
    None
}

/// Why the sides of a piece are refused, by how it lies.
fn side_refusal(row: u64, filled: u32, e: &Row, r: &Row, along: Along) -> Option<BadPlan>
    ensures { result ≡ side_refusal_of row filled e.now r.now along }
{
    match along {
        Along::Plates => None,
        Along::X => width_refusal(row, filled, e, r),
        Along::Y => height_refusal(row, filled, e, r),
    }
}

/// Why a piece is refused whose parent is the row `e`, and whose neighbours before it fill so much of their parent.
fn piece_refusal(row: u64, filled: u32, e: &Row, r: &Row) -> Option<BadPlan>
    ensures { result ≡ piece_refusal_of row filled e.now r.now }
{
    if r.plate != e.plate {
        return Some(BadPlan::Parent(row));
    }
    if u64::from(r.cut) != u64::from(e.cut) + 1 {
        return Some(BadPlan::Level(row, u64::from(r.cut)));
    }
    if !is_branch(e.kind) {
        return Some(BadPlan::Kind(row));
    }
    if is_residual(r.kind) && r.cut != 1 {
        return Some(BadPlan::Kind(row));
    }
    if is_branch(r.kind) && r.cut == 4 {
        return Some(BadPlan::Kind(row));
    }
    side_refusal(row, filled, e, r, lies(r.cut))
}

/// Why a piece is refused that names this number as its parent.
fn child_refusal(row: u64, nodes: &Nodes, r: &Row, parent: u64) -> Option<BadPlan>
    requires { AreNodes nodes.now }
    ensures { result ≡ child_refusal_of row nodes.now.rows.items r.now
        (row_with parent nodes.now.rows.items) }
{
    match nodes.named.get(&parent) {
        None => Some(BadPlan::Parent(row)),
        Some(node) => piece_refusal(row, node.filled, &node.row, r),
    }
}

/// Why a row is refused, by its level and its parent.
fn place_refusal(instance: &Instance, row: u64, nodes: &Nodes, r: &Row) -> Option<BadPlan>
    requires { AreNodes nodes.now }
    ensures { result ≡ place_refusal_of instance.now row nodes.now.rows.items r.now
        r.now.cut r.now.parent }
{
    match r.cut {
        0 => match r.parent {
            None => plate_refusal(instance, row, nodes, r),
            Some(_) => Some(BadPlan::Parent(row)),
        },
        _ => match r.parent {
            None => Some(BadPlan::Parent(row)),
            Some(parent) => child_refusal(row, nodes, r, parent),
        },
    }
}

/// Why a row is refused, if it is.
pub fn refusal(instance: &Instance, row: u64, nodes: &Nodes, r: &Row) -> Option<BadPlan>
    requires { AreNodes nodes.now }
    ensures { result ≡ row_refusal instance.now row nodes.now.rows.items r.now }
{
    if nodes.named.contains_key(&r.node) {
        Some(BadPlan::Parent(row))
    } else {
        place_refusal(instance, row, nodes, r)
    }
}
