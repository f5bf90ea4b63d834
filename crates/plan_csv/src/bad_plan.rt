//! Why a text is no plan.

ghost use Rattle.std.specs.Prelude.{◌≡◌};
ghost use Rattle.plan_csv.specs.declared.bad_plan.BadPlan.TheVariants.{Memory as OutOfMemory};

use glass_base::Memory;
use thiserror::Error;

/// Why a text is no plan: the first row that is refused decides, and in it the first cause in the order of the variants, but for
/// `Kind`, which comes before `Size`. Rows and columns count from 1, the skipped first row included.
#[derive(Debug, Drop, Error)]
pub enum BadPlan {
    /// Memory ran out.
    #[error("out of memory")]
    Memory,
    /// A row, with another number of fields than nine.
    #[error("row {0} has {1} fields")]
    Record(u64, u64),
    /// A row and a column whose field is no whole number in the column's range.
    #[error("row {0}, column {1} is no number in range")]
    Number(u64, u64),
    /// A row whose node number was used before, that names no earlier row as its parent, or that has a parent though it is a
    /// plate, has none though it is a piece, or lies on another plate than its parent.
    #[error("row {0} has a wrong node or parent")]
    Parent(u64),
    /// A row, with a level of cut that is not one more than its parent's; 0 for a plate out of turn.
    #[error("row {0} has the wrong level {1}")]
    Level(u64, u64),
    /// A row and the column of a side or a place that its parent and its neighbours fix otherwise, or with which they are longer
    /// than 20,000 mm.
    #[error("row {0}, column {1} does not fit its parent")]
    Size(u64, u64),
    /// A row of a type that does not go with its level, or whose parent is not cut; or, once all rows are read, a piece of a 3-cut
    /// that is cut and has not two children.
    #[error("row {0} has a wrong type")]
    Kind(u64),
}

impl From<Memory> for BadPlan {
    ghost from_gives = { λ _ e. e ≡ OutOfMemory };

    fn from(_refused: Memory) -> BadPlan {
        BadPlan::Memory
    }
}
