//! Gaps: beside a band, over a cell, and up to the plate's sides nothing or at least a least waste is left.

use crate::measure::Length;
use crate::scene::Scene;
use crate::shapes::Cell;
use crate::sheet::Sheet;

/// Rounds in which a side may be shifted.
pub const ROUNDS: u32 = 30;

/// What is left behind `side` up to the glass's `end`, where that is too little for a waste; else 0.
pub fn lack(sheet: &Sheet, side: Length, end: Length) -> Length {
    if side < end && end - side < sheet.waste {
        end - side
    } else {
        Length::ZERO
    }
}

/// `side`, or the glass's `end` where what is left before that is too little for a waste, and nothing before `side`
/// may reach further.
fn up_to_end(sheet: &Sheet, side: Length, end: Length, lax: Length) -> Length {
    if lax > Length::ZERO {
        side
    } else {
        side + lack(sheet, side, end)
    }
}

/// The strip's right side `b`, or further right where what is left behind a band that ends at `right` is too little.
fn clear_of(sheet: &Sheet, b: Length, right: Length) -> Length {
    if right < b && b - right < sheet.waste {
        right + sheet.waste
    } else {
        b
    }
}

/// The strip's right side `b`, or further right where some band, the open one ending at `right`, leaves too little
/// behind it.
fn clear_of_bands(sheet: &Sheet, scene: &Scene, b: Length, right: Length) -> Length {
    let mut least = clear_of(sheet, b, right);
    for band in scene.bands {
        least = least.max(clear_of(sheet, b, band.right));
    }
    least
}

/// The least right side of the strip from `b` on that the gaps allow, where the open band ends at `right`.
pub fn least_right(sheet: &Sheet, scene: &Scene, b: Length, right: Length) -> Option<Length> {
    let mut side = b;
    for _ in 0..ROUNDS {
        side = up_to_end(sheet, side, scene.wide, scene.lax.b);
        if side > scene.wide || side - scene.a > sheet.max1 {
            return None;
        }
        let least = clear_of_bands(sheet, scene, side, right);
        if least == side {
            return Some(side);
        }
        side = least;
    }
    None
}

/// The band's upper side `d`, or further up where what is left over the cell is too little. Over two items nothing
/// may be left.
fn clear_over(sheet: &Sheet, scene: &Scene, d: Length, cell: &Cell) -> Option<Length> {
    let top = scene.c + cell.height;
    if d <= top {
        Some(d)
    } else if cell.two || cell.width < sheet.waste {
        None
    } else {
        Some(d.max(top + sheet.waste))
    }
}

/// The band's upper side `d`, or further up where what is left over the new cell or one of the band is too little.
fn clear_over_cells(sheet: &Sheet, scene: &Scene, d: Length, new: &Cell) -> Option<Length> {
    let mut least = clear_over(sheet, scene, d, new)?;
    for cell in scene.cells {
        least = least.max(clear_over(sheet, scene, d, cell)?);
    }
    Some(least)
}

/// The least upper side of the band from `d` on that the gaps allow, where the band has a new cell.
pub fn least_top(sheet: &Sheet, scene: &Scene, d: Length, new: &Cell) -> Option<Length> {
    let mut side = d;
    for _ in 0..ROUNDS {
        side = up_to_end(sheet, side, sheet.high, scene.lax.d);
        if side > sheet.high {
            return None;
        }
        let least = clear_over_cells(sheet, scene, side, new)?;
        if least == side {
            return Some(side);
        }
        side = least;
    }
    None
}
