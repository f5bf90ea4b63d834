//! Where the parts of a picture stand.

ghost use Rattle.std.specs.Prelude.{◌≡◌, ◌+◌, ◌*◌, ◌≤◌};
ghost use Rattle.plan_picture.specs.inner.Layouts.{IsLayout};

use crate::mark::{PictureSize, PlacedText, Words};
use cut_model::Row;
use glass_base::limits::MOST_SIDE;

/// The width of a picture, as a multiple of the size of its text, and that of the glass that fits into it.
const WIDTH: u64 = 60;

const GLASS: u64 = 56;

/// The height of a plate is at the most about this multiple of the size of the text.
const HIGHEST: u64 = 40;

/// What is left free beside, above and below each plate, as multiples of the size of the text. The legend stands above the first one.
const LEFT: u64 = 2;

const ABOVE: u64 = 6;

const BELOW: u64 = 1;

/// How many px of a printed page the size of the text takes, where the page is 1200 px wide.
const PX: u64 = 20;

/// The sizes of a picture, from which all places in it follow, in mm. Each plate has a part of the picture for itself, and all parts are
/// as high as a printed page.
#[derive(Clone, Copy)]
pub(crate) struct Layout {
    /// The size of plain text.
    pub size: u64,
    /// The height of a part, as a multiple of the size of the text.
    pub lines: u64,
    /// The height of a plate.
    pub height: u32,
    ghost sizes: { IsLayout size lines height },
}

impl Layout {
    ghost use Rattle.plan_picture.specs.declared.mark.Words.TheVariants.{Plate};
    ghost use Rattle.plan_picture.specs.inner.Layouts.{bottom_at};

    /// The layout of plates of this height, the widest of which is so wide. A page is never much higher than wide.
    pub fn new(widest: u32, height: u32) -> Layout
        requires widest { widest ≤ MOST_SIDE }
        requires height { height ≤ MOST_SIDE }
        ensures { result.height ≡ height }
    {
        let size = (u64::from(widest) / GLASS).max(u64::from(height) / HIGHEST) + 1;
        let lines = u64::from(height) / size + 1;
        Layout {
            size,
            lines: lines + ABOVE + BELOW,
            height,
        }
    }

    /// So many hundredths of the size of the text.
    pub fn hundredths(&self, hundredths: u64) -> u64 {
        self.size.saturating_mul(hundredths) / 100
    }

    /// The left side of the plates.
    pub fn left(&self) -> u64
        ensures { result ≡ self.now.size * 2 }
    {
        self.size * LEFT
    }

    /// The upper side of a plate.
    pub fn top(&self, plate: u32) -> u64
        ensures { result ≡ self.now.size * (self.now.lines * plate + 6) }
    {
        self.size * (self.lines * u64::from(plate) + ABOVE)
    }

    /// The lower side of a plate.
    pub fn bottom(&self, plate: u32) -> u64
        ensures { result ≡ bottom_at self.now.size self.now.lines self.now.height plate }
    {
        self.top(plate) + u64::from(self.height)
    }

    /// The sizes of a picture of so many plates.
    pub fn frame(&self, plates: u64) -> PictureSize {
        PictureSize {
            width: self.size * WIDTH,
            height: (self.size * self.lines).saturating_mul(plates.max(1)),
            size: self.size,
            page: self.lines * PX,
        }
    }

    /// The text above a plate.
    pub fn heading(&self, number: u32, width: u32) -> PlacedText
        ensures { result.words ≡ Plate number width self.now.height }
    {
        PlacedText {
            x: self.left(),
            y: self.top(number).saturating_sub(self.hundredths(50)),
            size: self.size,
            upright: false,
            words: Words::Plate(number, width, self.height),
        }
    }

    /// Where the middle of a row stands in the picture.
    pub fn middle(&self, row: &Row) -> (u64, u64) {
        let right = u64::from(row.x) + u64::from(row.width) / 2;
        let up = u64::from(row.y) + u64::from(row.height) / 2;
        let x = self.left().saturating_add(right);
        let y = self.bottom(row.plate).saturating_sub(up);
        (x, y)
    }
}
