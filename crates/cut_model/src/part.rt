//! A piece of any level, and what can be done with a list of neighbours of one level. Every loop over pieces stands here.

ghost use Rattle.std.specs.Prelude.{◌≡◌, ℕ, ◌+◌, ◌≤◌, ◌↔◌, true, IsTrue, IfOk, MatchOption, ◌∷◌};
ghost use Rattle.cut_model.specs.Tree.{Forest, neighbours, total_size, children_in, count, is_item as is_item_sort};
ghost use Rattle.cut_model.specs.Families.{families, family_with, inside};
ghost use Rattle.cut_model.specs.Fits.{IsNumbered};
ghost use Rattle.cut_model.specs.inner.Room.{FitsIn, Leaves, FitsPiece, LeavesPiece};
ghost use Rattle.cut_model.specs.inner.Walks.{Walked, IsStart, NextWithin};
ghost use Rattle.cut_model.specs.declared.family.Sort.{Sort};

use crate::family::{Area, Children, Family, Position, Sort};
use crate::visitor::Visitor;
use glass_base::limits::{MOST_NUMBER, MOST_ROWS, MOST_SIDE};

/// A piece of one of the levels.
pub trait Part {
    // Its size, its sort, what it is cut into, and the number of the cut that makes it.
    ghost size: { Self → ℕ };

    ghost sort: { Self → Sort };

    ghost inner: { Self → Forest };

    ghost level: { ℕ };

    fn size(&self) -> u32
        ensures { result ≡ size self.now };

    fn sort(&self) -> Sort
        ensures { result ≡ sort self.now };

    fn children(&self) -> Children
        requires { total_size (inner self.now) ≤ MOST_SIDE }
        ensures { result ≡ children_in (inner self.now) };

    /// What is left of `room` for rows by the pieces inside, if they are in range.
    fn room_after_inside(&self, room: u64) -> Option<u64>
        ensures { MatchOption result (¬ FitsIn MOST_SIDE room (inner self.now)) (λ left. Leaves MOST_SIDE room (inner self.now) left) };

    /// Tells the visitor the families inside.
    fn walk_inside<V: Visitor>(&self, visitor: &mut V, at: Area, node: u64) -> Result<u64, V::Stop>
        requires start { IsStart (level + 1) node at }
        requires fits { FitsIn MOST_SIDE MOST_ROWS (inner self.now) }
        requires room { node + count (inner self.now) ≤ MOST_ROWS }
        ensures { IfOk result (λ next. Walked V.has_seen visitor.old visitor.new (families at true node (inner self.now)) next (node + count (inner self.now))) };

    ghost shallow: { level ≤ 4 };
}

/// Whether a piece is an item.
fn is_item(sort: Sort) -> bool
    ensures { result ≡ is_item_sort sort }
{
    match sort {
        Sort::Item(_) => true,
        Sort::Waste | Sort::Branch | Sort::Residual => false,
    }
}

/// What a piece that is cut into these pieces has for children.
pub fn children_of<P: Part>(pieces: &[P]) -> Children
    requires { total_size (neighbours P.size P.sort P.inner pieces.now) ≤ MOST_SIDE }
    ensures { result ≡ children_in (neighbours P.size P.sort P.inner pieces.now) }
{
    let mut total = 0;
    let mut has_item = false;
    for piece in pieces {
        total += piece.size();
        has_item |= is_item(piece.sort());
    }
    Children {
        empty: pieces.is_empty(),
        total,
        has_item,
    }
}

/// Whether an item number is in range.
fn is_numbered(sort: Sort) -> bool
    ensures { IsTrue result ↔ IsNumbered sort }
{
    match sort {
        Sort::Item(number) => number <= MOST_NUMBER,
        Sort::Waste | Sort::Branch | Sort::Residual => true,
    }
}

/// What is left of `room` for rows by this piece and those inside it, if they are in range.
fn room_after_piece<P: Part>(room: u64, piece: &P) -> Option<u64>
    ensures { MatchOption result (¬ FitsPiece room (P.sort piece.now) (P.inner piece.now))
        (λ left. LeavesPiece room (P.sort piece.now) (P.inner piece.now) left) }
{
    if !is_numbered(piece.sort()) {
        return None;
    }
    piece.room_after_inside(room.checked_sub(1)?)
}

/// What is left of `room` for rows by these neighbours, if they are in range.
pub fn room_after<P: Part>(room: u64, pieces: &[P]) -> Option<u64>
    ensures { let forest = neighbours P.size P.sort P.inner pieces.now in
        MatchOption result (¬ FitsIn MOST_SIDE room forest) (λ left. Leaves MOST_SIDE room forest left) }
{
    let mut length = MOST_SIDE;
    let mut left = room;
    for piece in pieces {
        length = length.checked_sub(piece.size())?;
        left = room_after_piece(left, piece)?;
    }
    Some(left)
}

/// The family of a piece at this position.
fn family_of<P: Part>(at: Position, piece: &P) -> Family
    requires { total_size (P.inner piece.now) ≤ MOST_SIDE }
    ensures { result ≡ family_with at.area at.first at.ends at.node (P.size piece.now)
        (P.sort piece.now) (children_in (P.inner piece.now)) }
{
    Family::new(at, piece.size(), piece.sort(), piece.children())
}

/// Tells the visitor the family of this piece, then those inside it.
pub fn walk_piece<V: Visitor, P: Part>(
    visitor: &mut V,
    at: Position,
    piece: &P,
) -> Result<u64, V::Stop>
    requires next { NextWithin P.level at.node at.area at.first at.ends (P.size piece.now)
        (P.sort piece.now) (P.inner piece.now) }
    requires room { at.node + 1 + count (P.inner piece.now) ≤ MOST_ROWS }
    ensures { let f = family_with at.area at.first at.ends at.node (P.size piece.now)
        (P.sort piece.now) (children_in (P.inner piece.now)) in
        IfOk result (λ next. Walked V.has_seen visitor.old visitor.new
        (f ∷ families (inside f) true (at.node + 1) (P.inner piece.now)) next
        (at.node + 1 + count (P.inner piece.now))) }
{
    let family = family_of(at, piece);
    visitor.visit(&family)?;
    piece.walk_inside(visitor, family.inside(), at.node + 1)
}

/// Tells the visitor the families of these neighbours.
pub fn walk_neighbours<V: Visitor, P: Part>(
    visitor: &mut V,
    at: Area,
    first_node: u64,
    pieces: &[P],
) -> Result<u64, V::Stop>
    requires start { IsStart P.level first_node at }
    requires fits { FitsIn MOST_SIDE MOST_ROWS (neighbours P.size P.sort P.inner pieces.now) }
    requires room { first_node + count (neighbours P.size P.sort P.inner pieces.now) ≤ MOST_ROWS }
    ensures { let forest = neighbours P.size P.sort P.inner pieces.now in
        IfOk result (λ next. Walked V.has_seen visitor.old visitor.new
        (families at true first_node forest) next (first_node + count forest)) }
{
    let mut rest = at;
    let mut node = first_node;
    let mut first = true;
    let last = pieces.len();
    for (place, piece) in pieces.iter().enumerate() {
        let position = Position {
            area: rest,
            first,
            ends: place + 1 == last,
            node,
        };
        node = walk_piece(visitor, position, piece)?;
        rest = rest.behind(piece.size());
        first = false;
    }
    Ok(node)
}
