//! What defects ask of the place of a new cell.

use crate::measure::Length;
use crate::scene::Scene;
use crate::shapes::{Cell, ClosedBand, Reach, Rectangle};
use crate::sheet::Sheet;

/// What a defect asks of a place.
#[derive(Clone, Copy)]
pub enum Demand {
    Nothing,
    /// The strip has to reach so far right.
    Right(Length),
    /// The band has to reach so far up.
    Up(Length),
    /// There is no lawful place.
    Never,
}

/// Whether a side of the cell that is a cut runs through the defect.
fn is_side_crossed(scene: &Scene, defect: &Rectangle, reach: Reach, cell: &Cell) -> bool {
    let right = cell.right();
    (scene.a < cell.e && defect.is_crossed_x(cell.e))
        || (right < reach.b && defect.is_crossed_x(right))
}

/// What a defect that reaches into the strip and into the band asks of a cell.
fn demand_of_cell(scene: &Scene, defect: &Rectangle, reach: Reach, cell: &Cell) -> Demand {
    if is_side_crossed(scene, defect, reach, cell) {
        return Demand::Never;
    }
    if defect.x1 <= cell.e || cell.right() <= defect.x0 {
        return Demand::Nothing;
    }
    if cell.lifted {
        if reach.d - cell.height < defect.y1 {
            return Demand::Up(defect.y1 + cell.height);
        }
    } else if defect.y0 < scene.c + cell.height {
        return Demand::Never;
    }
    Demand::Nothing
}

/// Whether the line behind the band's last cell runs through the defect.
fn is_end_crossed(defect: &Rectangle, b: Length, band: &ClosedBand) -> bool {
    band.right < b && defect.is_crossed_x(band.right) && defect.y0 < band.d && band.c < defect.y1
}

/// Whether a line of a closed band runs through a defect of the strip.
fn is_band_crossed(sheet: &Sheet, defect: &Rectangle, b: Length, band: &ClosedBand) -> bool {
    (Length::ZERO < band.c && defect.is_crossed_y(band.c))
        || (band.d < sheet.high && defect.is_crossed_y(band.d))
        || is_end_crossed(defect, b, band)
}

/// What a defect of the strip asks of the strip and of its closed bands.
fn demand_of_strip(sheet: &Sheet, scene: &Scene, defect: &Rectangle, b: Length) -> Demand {
    if b < scene.wide && b < defect.x1 {
        return Demand::Right(defect.x1);
    }
    if b > scene.b
        && scene
            .bands
            .iter()
            .any(|band| is_band_crossed(sheet, defect, b, band))
    {
        return Demand::Never;
    }
    Demand::Nothing
}

/// What a defect of the strip asks of the band's lower and upper side.
fn demand_of_band(sheet: &Sheet, scene: &Scene, defect: &Rectangle, d: Length) -> Demand {
    if Length::ZERO < scene.c && defect.is_crossed_y(scene.c) {
        return Demand::Never;
    }
    if d < sheet.high && defect.is_crossed_y(d) {
        return Demand::Up(defect.y1);
    }
    Demand::Nothing
}

/// What a defect of the band asks of the cells that the band has already. Where neither side is shifted they are
/// lawful.
fn demand_of_cells(scene: &Scene, defect: &Rectangle, reach: Reach) -> Demand {
    if reach.b <= scene.b && reach.d <= scene.d {
        return Demand::Nothing;
    }
    for cell in scene.cells {
        match demand_of_cell(scene, defect, reach, cell) {
            Demand::Nothing => {}
            demand => return demand,
        }
    }
    Demand::Nothing
}

/// What a defect asks of the new cell's place with these sides of strip and band.
fn demand_of(sheet: &Sheet, scene: &Scene, defect: &Rectangle, reach: Reach, new: &Cell) -> Demand {
    if defect.x1 <= scene.a || reach.b <= defect.x0 {
        return Demand::Nothing;
    }
    match demand_of_strip(sheet, scene, defect, reach.b) {
        Demand::Nothing => {}
        demand => return demand,
    }
    if !defect.is_along_y(scene.c, reach.d) {
        return Demand::Nothing;
    }
    match demand_of_band(sheet, scene, defect, reach.d) {
        Demand::Nothing => {}
        demand => return demand,
    }
    match demand_of_cells(scene, defect, reach) {
        Demand::Nothing => demand_of_cell(scene, defect, reach, new),
        demand => demand,
    }
}

/// What the first defect asks that asks for something.
pub fn first_demand(sheet: &Sheet, scene: &Scene, reach: Reach, new: &Cell) -> Demand {
    for defect in scene.defects {
        if reach.b <= defect.x0 {
            return Demand::Nothing;
        }
        match demand_of(sheet, scene, defect, reach, new) {
            Demand::Nothing => {}
            demand => return demand,
        }
    }
    Demand::Nothing
}
