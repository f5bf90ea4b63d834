//! What is asked of a defect.

ghost use Rattle.std.specs.Prelude.{◌≡◌};
ghost use Rattle.std.specs.List.{list_any};
ghost use Rattle.defect_map.specs.inner.Frames.{is_met as is_met_by, is_met_at, is_some_met};

use crate::columns::Column;
use glass_base::Defect;

/// A question on defects: which of them lie on this plate, end behind `x.0` and begin before `x.1`, and the same along y.
///
/// Each query asks such a question. Where `x.0` is before `x.1`, the answers are the defects whose inside meets that of the
/// range; where it is not, those whose inside has all from `x.1` to `x.0` in it.
#[derive(Clone, Copy)]
pub struct Region {
    pub plate: u32,
    pub x: (u32, u32),
    pub y: (u32, u32),
}

impl Region {
    /// Whether the defect is one of those.
    pub fn is_met(&self, d: &Defect) -> bool
        ensures { result ≡ is_met_by self.now d.now }
    {
        d.plate == self.plate
            && d.x0 < self.x.1
            && self.x.0 < d.x1
            && d.y0 < self.y.1
            && self.y.0 < d.y1
    }

    /// Whether the defect at this position is one of those.
    fn is_met_at(&self, defects: &[Defect], at: u32) -> bool
        ensures { result ≡ is_met_at self.now defects.now at }
    {
        match defects.get(at as usize) {
            Some(d) => self.is_met(d),
            None => false,
        }
    }

    /// Whether some defect whose position stands in this column is one of those.
    fn is_met_in(&self, defects: &[Defect], column: &Column) -> bool
        ensures { result ≡ list_any (is_met_at self.now defects.now) column.now.items }
    {
        column
            .as_slice()
            .iter()
            .any(|at| self.is_met_at(defects, *at))
    }

    /// Whether some defect whose position stands in one of these columns is one of those.
    pub fn is_met_among(&self, defects: &[Defect], columns: &[Column]) -> bool
        ensures { result ≡ is_some_met self.now defects.now columns.now }
    {
        columns.iter().any(|column| self.is_met_in(defects, column))
    }
}
