//! A piece with what its rules need of its neighbours and children.

ghost use Rattle.std.specs.Prelude.{◌≡◌, ◌+◌, ◌<◌, ◌^◌};
ghost use Rattle.cut_model.specs.Tree.{IsRowType, sort_named, type_number};
ghost use Rattle.cut_model.specs.Families.{row_at, family_with, inside as inside_of, behind as behind_of};

/// One line of the solution table: a plate or a piece. All lengths are in mm.
#[derive(Clone, Copy)]
pub struct Row {
    /// The number of its plate, from 0.
    pub plate: u32,
    /// The node number: all plates and pieces of the plan are counted from 0, each before its children.
    pub node: u64,
    /// The left side on its plate.
    pub x: u32,
    /// The lower side on its plate.
    pub y: u32,
    pub width: u32,
    pub height: u32,
    /// The item's number, or -1 for a waste, -2 for a plate or a piece that is cut, -3 for the residual.
    pub kind: i64,
    /// 0 for a plate, and for a piece the level of the cut that makes it, 1 to 4.
    pub cut: u32,
    /// The node number of the piece that it is cut from. A plate has none.
    pub parent: Option<u64>,
}

/// What a piece is.
#[derive(Clone, Copy)]
pub enum Sort {
    /// The item of this number.
    Item(u32),
    Waste,
    /// A plate, or a piece that is cut.
    Branch,
    Residual,
}

/// How neighbours lie: plates apart, pieces side by side or one over the other.
#[derive(Clone, Copy)]
pub enum Along {
    /// One plate behind another.
    Plates,
    /// Side by side.
    X,
    /// One over the other.
    Y,
}

/// What a piece is cut into, in short.
#[derive(Clone, Copy)]
pub struct Children {
    /// Whether there is none.
    pub empty: bool,
    /// The sum of their sizes in the direction of the cut, in mm.
    pub total: u32,
    /// Whether one of them is an item.
    pub has_item: bool,
}

/// A piece of a plan: its row, and what its rules need of its neighbours and children.
#[derive(Clone, Copy)]
pub struct Family {
    pub row: Row,
    pub sort: Sort,
    /// How it lies among its neighbours.
    pub along: Along,
    /// Whether no neighbour stands before it.
    pub first: bool,
    /// Whether nothing stands behind it, nor behind the pieces that it is in.
    pub ends: bool,
    pub children: Children,
}

/// Where the next piece of a list lies, and the sides of the piece that the list is cut from.
#[derive(Clone, Copy)]
pub struct Area {
    pub plate: u32,
    pub cut: u32,
    pub along: Along,
    pub parent: Option<u64>,
    pub x: u32,
    pub y: u32,
    pub width: u32,
    pub height: u32,
    pub last: bool,
}

/// Where a piece lies, and where it stands among its neighbours.
#[derive(Clone, Copy)]
pub struct Position {
    pub area: Area,
    /// Whether no neighbour stands before it.
    pub first: bool,
    /// Whether no neighbour stands behind it.
    pub ends: bool,
    /// Its node number.
    pub node: u64,
}

impl Sort {
    /// The type by which a row names it.
    pub fn kind(self) -> i64
        ensures { result ≡ type_number self }
    {
        match self {
            Sort::Item(number) => i64::from(number),
            Sort::Waste => -1,
            Sort::Branch => -2,
            Sort::Residual => -3,
        }
    }
}

impl Row {
    /// What its type names: an item by its number, or -1, -2 or -3.
    pub fn sort(&self) -> Sort
        requires { IsRowType self.now.kind }
        ensures { result ≡ sort_named self.now.kind }
    {
        match self.kind {
            -1 => Sort::Waste,
            -2 => Sort::Branch,
            -3 => Sort::Residual,
            kind => Sort::Item(kind as u32),
        }
    }
}

/// The row of a piece at this place.
fn row_of(at: &Area, node: u64, size: u32, sort: Sort) -> Row
    ensures { result ≡ row_at at.now node size sort }
{
    let (width, height) = match at.along {
        Along::Plates | Along::X => (size, at.height),
        Along::Y => (at.width, size),
    };
    Row {
        plate: at.plate,
        node,
        x: at.x,
        y: at.y,
        width,
        height,
        kind: sort.kind(),
        cut: at.cut,
        parent: at.parent,
    }
}

impl Family {
    ghost use Rattle.cut_model.specs.Families.{family_with, inside as inside_of};

    /// The family of a piece of this size and sort at this position.
    pub fn new(at: Position, size: u32, sort: Sort, children: Children) -> Family
        ensures { result ≡ family_with at.area at.first at.ends at.node size sort children }
    {
        Family {
            row: row_of(&at.area, at.node, size, sort),
            sort,
            along: at.area.along,
            first: at.first,
            ends: at.area.last && at.ends,
            children,
        }
    }

    /// Where the first piece inside this one lies.
    pub fn inside(&self) -> Area
        requires { self.now.row.cut < 100 }
        ensures { result ≡ inside_of self.now }
    {
        let along = match self.along {
            Along::Plates => Along::X,
            Along::X => Along::Y,
            Along::Y => Along::X,
        };
        Area {
            plate: self.row.plate,
            cut: self.row.cut + 1,
            along,
            parent: Some(self.row.node),
            x: self.row.x,
            y: self.row.y,
            width: self.row.width,
            height: self.row.height,
            last: self.ends,
        }
    }
}

impl Area {
    ghost use Rattle.cut_model.specs.Families.{behind as behind_of};

    /// Where the piece behind one of this size lies.
    pub fn behind(&self, size: u32) -> Area
        requires plate { self.now.plate + 1 < 2 ^ 32 }
        requires x { self.now.x + size < 2 ^ 32 }
        requires y { self.now.y + size < 2 ^ 32 }
        ensures { result ≡ behind_of self.now size }
    {
        match self.along {
            Along::Plates => Area {
                plate: self.plate + 1,
                ..*self
            },
            Along::X => Area {
                x: self.x + size,
                ..*self
            },
            Along::Y => Area {
                y: self.y + size,
                ..*self
            },
        }
    }
}
