//! Each type of piece, and the plate, as a piece of its level: a match on its body, with no loop and no proof of its own.

ghost use Rattle.std.specs.Prelude.{◌≡◌};

use crate::family::{Area, Children, Sort};
use crate::part::{Part, children_of, room_after, walk_neighbours};
use crate::plan::{Body1, Body2, Body3, Body4, Leaf4, Piece1, Piece2, Piece3, Plate};
use crate::visitor::Visitor;

const NO_CHILDREN: Children = Children {
    empty: true,
    total: 0,
    has_item: false,
};

impl Part for Leaf4 {
    ghost use Rattle.cut_model.specs.Tree.{sort4, nothing};

    ghost size = { λ p. p.height };

    ghost sort = { λ p. sort4 p.body };

    ghost inner = { λ p. nothing };

    ghost level = { 4 };

    ghost use Rattle.std.proofs.Common.{arith};

    ghost shallow = { Prim.omega arith };

    fn size(&self) -> u32 {
        self.height
    }

    fn sort(&self) -> Sort {
        match self.body {
            Body4::Waste => Sort::Waste,
            Body4::Item(number) => Sort::Item(number),
        }
    }

    fn children(&self) -> Children {
        NO_CHILDREN
    }

    fn room_after_inside(&self, room: u64) -> Option<u64> {
        Some(room)
    }

    #[tactic(auto, using(crate::proofs::Walks::walked_nothing))]
    fn walk_inside<V: Visitor>(
        &self,
        _visitor: &mut V,
        _at: Area,
        node: u64,
    ) -> Result<u64, V::Stop> {
        Ok(node)
    }
}

impl Part for Piece3 {
    ghost use Rattle.cut_model.specs.Tree.{sort3, inner3};
    ghost use Rattle.std.proofs.Common.{arith};

    ghost size = { λ p. p.width };

    ghost sort = { λ p. sort3 p.body };

    ghost inner = { λ p. inner3 p.body };

    ghost level = { 3 };

    ghost shallow = { Prim.omega arith };

    fn size(&self) -> u32 {
        self.width
    }

    fn sort(&self) -> Sort {
        match self.body {
            Body3::Waste => Sort::Waste,
            Body3::Item(number) => Sort::Item(number),
            Body3::Two(_, _) => Sort::Branch,
        }
    }

    fn children(&self) -> Children {
        match self.body {
            Body3::Waste => NO_CHILDREN,
            Body3::Item(_) => NO_CHILDREN,
            Body3::Two(low, high) => children_of(&[low, high]),
        }
    }

    fn room_after_inside(&self, room: u64) -> Option<u64> {
        match self.body {
            Body3::Waste => Some(room),
            Body3::Item(_) => Some(room),
            Body3::Two(low, high) => room_after(room, &[low, high]),
        }
    }

    #[tactic(auto, using(crate::proofs::Walks::walked_nothing))]
    fn walk_inside<V: Visitor>(
        &self,
        visitor: &mut V,
        at: Area,
        node: u64,
    ) -> Result<u64, V::Stop> {
        match self.body {
            Body3::Waste => Ok(node),
            Body3::Item(_) => Ok(node),
            Body3::Two(low, high) => walk_neighbours(visitor, at, node, &[low, high]),
        }
    }
}

impl Part for Piece2 {
    ghost use Rattle.cut_model.specs.Tree.{sort2, inner2};
    ghost use Rattle.std.proofs.Common.{arith};

    ghost size = { λ p. p.height };

    ghost sort = { λ p. sort2 p.body };

    ghost inner = { λ p. inner2 p.body };

    ghost level = { 2 };

    ghost shallow = { Prim.omega arith };

    fn size(&self) -> u32 {
        self.height
    }

    fn sort(&self) -> Sort {
        match &self.body {
            Body2::Waste => Sort::Waste,
            Body2::Item(number) => Sort::Item(*number),
            Body2::Cut(_) => Sort::Branch,
        }
    }

    fn children(&self) -> Children {
        match &self.body {
            Body2::Waste => NO_CHILDREN,
            Body2::Item(_) => NO_CHILDREN,
            Body2::Cut(pieces) => children_of(pieces.as_slice()),
        }
    }

    fn room_after_inside(&self, room: u64) -> Option<u64> {
        match &self.body {
            Body2::Waste => Some(room),
            Body2::Item(_) => Some(room),
            Body2::Cut(pieces) => room_after(room, pieces.as_slice()),
        }
    }

    #[tactic(auto, using(crate::proofs::Walks::walked_nothing))]
    fn walk_inside<V: Visitor>(
        &self,
        visitor: &mut V,
        at: Area,
        node: u64,
    ) -> Result<u64, V::Stop> {
        match &self.body {
            Body2::Waste => Ok(node),
            Body2::Item(_) => Ok(node),
            Body2::Cut(pieces) => walk_neighbours(visitor, at, node, pieces.as_slice()),
        }
    }
}

impl Part for Piece1 {
    ghost use Rattle.cut_model.specs.Tree.{sort1, inner1};
    ghost use Rattle.std.proofs.Common.{arith};

    ghost size = { λ p. p.width };

    ghost sort = { λ p. sort1 p.body };

    ghost inner = { λ p. inner1 p.body };

    ghost level = { 1 };

    ghost shallow = { Prim.omega arith };

    fn size(&self) -> u32 {
        self.width
    }

    fn sort(&self) -> Sort {
        match &self.body {
            Body1::Waste => Sort::Waste,
            Body1::Residual => Sort::Residual,
            Body1::Item(number) => Sort::Item(*number),
            Body1::Cut(_) => Sort::Branch,
        }
    }

    fn children(&self) -> Children {
        match &self.body {
            Body1::Waste => NO_CHILDREN,
            Body1::Residual => NO_CHILDREN,
            Body1::Item(_) => NO_CHILDREN,
            Body1::Cut(pieces) => children_of(pieces.as_slice()),
        }
    }

    fn room_after_inside(&self, room: u64) -> Option<u64> {
        match &self.body {
            Body1::Waste => Some(room),
            Body1::Residual => Some(room),
            Body1::Item(_) => Some(room),
            Body1::Cut(pieces) => room_after(room, pieces.as_slice()),
        }
    }

    #[tactic(auto, using(crate::proofs::Walks::walked_nothing))]
    fn walk_inside<V: Visitor>(
        &self,
        visitor: &mut V,
        at: Area,
        node: u64,
    ) -> Result<u64, V::Stop> {
        match &self.body {
            Body1::Waste => Ok(node),
            Body1::Residual => Ok(node),
            Body1::Item(_) => Ok(node),
            Body1::Cut(pieces) => walk_neighbours(visitor, at, node, pieces.as_slice()),
        }
    }
}

impl Part for Plate {
    ghost use Rattle.cut_model.specs.Tree.{strips};
    ghost use Rattle.cut_model.specs.declared.family.Sort.TheVariants.{Branch};
    ghost use Rattle.std.proofs.Common.{arith};

    ghost size = { λ p. 0 };

    ghost sort = { λ p. Branch };

    ghost inner = { λ p. strips p.pieces.items };

    ghost level = { 0 };

    ghost shallow = { Prim.omega arith };

    fn size(&self) -> u32 {
        0
    }

    fn sort(&self) -> Sort {
        Sort::Branch
    }

    fn children(&self) -> Children {
        children_of(self.pieces.as_slice())
    }

    fn room_after_inside(&self, room: u64) -> Option<u64> {
        room_after(room, self.pieces.as_slice())
    }

    #[tactic(auto, using(crate::proofs::Walks::walked_nothing))]
    fn walk_inside<V: Visitor>(
        &self,
        visitor: &mut V,
        at: Area,
        node: u64,
    ) -> Result<u64, V::Stop> {
        walk_neighbours(visitor, at, node, self.pieces.as_slice())
    }
}

/// A plate of an instance, which has its width for its size.
#[derive(Clone, Copy)]
pub struct OnPlate<'a> {
    pub plate: &'a Plate,
    /// In mm.
    pub width: u32,
}

impl<'a> Part for OnPlate<'a> {
    ghost use Rattle.cut_model.specs.Tree.{strips};
    ghost use Rattle.cut_model.specs.declared.family.Sort.TheVariants.{Branch};
    ghost use Rattle.std.proofs.Common.{arith};

    ghost size = { λ p. p.width };

    ghost sort = { λ p. Branch };

    ghost inner = { λ p. strips p.plate.now.pieces.items };

    ghost level = { 0 };

    ghost shallow = { Prim.omega arith };

    fn size(&self) -> u32 {
        self.width
    }

    fn sort(&self) -> Sort {
        Sort::Branch
    }

    fn children(&self) -> Children {
        self.plate.children()
    }

    fn room_after_inside(&self, room: u64) -> Option<u64> {
        self.plate.room_after_inside(room)
    }

    fn walk_inside<V: Visitor>(
        &self,
        visitor: &mut V,
        at: Area,
        node: u64,
    ) -> Result<u64, V::Stop> {
        self.plate.walk_inside(visitor, at, node)
    }
}
