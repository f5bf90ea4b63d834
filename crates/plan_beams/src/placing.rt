//! Children of a node: a cell put down where that is lawful.

use crate::clearance::is_clear;
use crate::fitting::{fit, is_tight, note_tries};
use crate::form::CellForm;
use crate::gaps::lack;
use crate::ledger::Ledger;
use crate::measure::{Amount, Length};
use crate::node::{Candidate, LaidCell};
use crate::scene::Scene;
use crate::shapes::{Cell, Reach};
use glass_base::Memory;

/// What a free place right of the band is charged where no item can fit, in 1/1024 mm² of waste for each mm².
const RIGHT_SMALL: Amount = Amount(512);

/// Glass behind the front, where the band's last cell ends at `right`, that the items before a new one leave: the front
/// of a node is all that lies left of it and below it.
fn glass_behind(scene: &Scene, right: Length, reach: Reach) -> Amount {
    let left_of_strip = scene.task.sheet.high * (scene.before + scene.a);
    let below_band = (reach.b - scene.a) * scene.c;
    let in_band = (right - scene.a) * (reach.d - scene.c);
    left_of_strip + below_band + in_band - scene.base.area
}

/// Glass behind the front that is lost.
fn waste_of(scene: &Scene, form: &CellForm, e: Length, reach: Reach) -> Amount {
    glass_behind(scene, e + form.width, reach) - form.area
}

/// What the free place above the band is charged.
fn above_of(scene: &Scene, reach: Reach) -> Amount {
    scene.task.guide.above * ((reach.b - scene.a) * (scene.task.sheet.high - reach.d))
}

/// What the free places of the open strip are charged.
fn charge_of(scene: &Scene, form: &CellForm, e: Length, reach: Reach) -> Amount {
    let free = reach.b - (e + form.width);
    let rate = if free < scene.task.sheet.small {
        RIGHT_SMALL
    } else {
        scene.task.guide.right
    };
    rate * (free * (reach.d - scene.c)) + above_of(scene, reach)
}

/// What a child with at least this reach is charged at the least: with `b` and `d` this and its waste grow together, and
/// what the last item loses is more than its charges.
fn least_charge(scene: &Scene, form: &CellForm, e: Length, least: Reach) -> Amount {
    let free = least.b - (e + form.width);
    let small = RIGHT_SMALL * Amount(u64::from(free.0));
    let usual = scene.task.guide.right * Amount(u64::from(free.max(scene.task.sheet.small).0));
    let right = small.min(usual) * Amount(u64::from((least.d - scene.c).0));
    right + above_of(scene, least)
}

/// Whether a child with at least this reach is of no use, for its waste and what it is charged at the least.
pub fn is_late(scene: &Scene, form: &CellForm, e: Length, least: Reach) -> bool {
    let waste = Amount(1024) * waste_of(scene, form, e, least);
    waste >= form.limit || waste + least_charge(scene, form, e, least) >= form.limit
}

/// The least waste of any child, whatever its form, in 1/1024 mm²: a cell adds no less glass behind the front than its
/// items have.
pub fn least_waste(scene: &Scene) -> Amount {
    let reach = Reach {
        b: scene.b,
        d: scene.d,
    };
    Amount(1024) * glass_behind(scene, scene.left(), reach)
}

/// How many items a child has.
fn items_of(scene: &Scene, form: &CellForm) -> u16 {
    scene.base.node.items.saturating_add(form.items())
}

/// The waste and the charge of a child. With all items nothing is charged, and the waste is the loss.
fn weigh(scene: &Scene, form: &CellForm, e: Length, reach: Reach) -> (Amount, Amount) {
    if usize::from(items_of(scene, form)) == scene.task.stock.items {
        let area = scene.base.area + form.area;
        let end = reach.b + lack(scene.task.sheet, reach.b, scene.wide);
        let loss = scene.task.sheet.high * (scene.before + end) - area;
        return (loss, Amount::ZERO);
    }
    let waste = waste_of(scene, form, e, reach);
    (waste, charge_of(scene, form, e, reach))
}

/// The node of a child.
fn node_of(scene: &Scene, form: &CellForm, cell: &Cell, reach: Reach) -> LaidCell {
    LaidCell {
        parent: scene.parent,
        part: form.part,
        above: form.above,
        begins: scene.begins,
        lifted: cell.lifted,
        plate: scene.plate,
        items: items_of(scene, form),
        a: scene.a.short(),
        b: reach.b.short(),
        c: scene.c.short(),
        d: reach.d.short(),
        e: cell.e.short(),
        width: form.width.short(),
        height: form.height.short(),
        lax_b: scene.lax.b.short(),
        lax_d: scene.lax.d.short(),
    }
}

/// Offers a child; it is dropped where it is of no use.
fn offer(
    ledger: &mut Ledger,
    scene: &Scene,
    form: &CellForm,
    cell: &Cell,
    reach: Reach,
) -> Result<(), Memory> {
    let (waste, charge) = weigh(scene, form, cell.e, reach);
    if Amount(1024) * waste + charge >= form.limit {
        return Ok(());
    }
    ledger.ticks.spend(4);
    let value = scene.base.value + form.value;
    let candidate = Candidate {
        node: node_of(scene, form, cell, reach),
        key: Amount(1024) * waste + charge + (scene.task.stock.value - value),
        area: scene.base.area + form.area,
        value,
        waste,
        mix: scene.base.mix.wrapping_add(form.mix),
    };
    ledger.offer(&candidate)
}

/// How far strip and band reach with a cell, if it stands lawfully. Where bands and strips are stretched around
/// defects, the whole plate is asked, and where that is unlawful nothing is stretched.
fn reach_of(ledger: &mut Ledger, scene: &Scene, form: &CellForm, cell: &Cell) -> Option<Reach> {
    let reach = fit(scene.task.sheet, scene, cell, &mut ledger.ticks)?;
    if !is_tight(scene.task.sheet, scene, reach) {
        return Some(reach);
    }
    let new = node_of(scene, form, cell, reach);
    if is_clear(scene.task.sheet, scene, new, &mut ledger.ticks) {
        return Some(reach);
    }
    let still = Scene {
        lax: Reach::ZERO,
        ..*scene
    };
    fit(scene.task.sheet, &still, cell, &mut ledger.ticks)
}

/// Puts a cell at `e` where that is lawful, and tells how far strip and band then reach.
fn try_at(
    ledger: &mut Ledger,
    scene: &Scene,
    form: &CellForm,
    e: Length,
    lifted: bool,
) -> Result<Option<Reach>, Memory> {
    let cell = form.cell(e, lifted);
    let found = reach_of(ledger, scene, form, &cell);
    if let Some(reach) = found {
        offer(ledger, scene, form, &cell, reach)?;
    }
    Ok(found)
}

/// Puts a cell at the first of these left sides where that is lawful.
fn try_first(
    ledger: &mut Ledger,
    scene: &Scene,
    form: &CellForm,
    tries: &[Length],
) -> Result<Option<Reach>, Memory> {
    for e in tries {
        let found = try_at(ledger, scene, form, *e, false)?;
        if found.is_some() {
            return Ok(found);
        }
    }
    Ok(None)
}

/// Puts a cell right behind what there is, or where a defect hinders it further right and lifted; tells how far strip
/// and band reach at the last place that was found.
fn place_first(
    ledger: &mut Ledger,
    scene: &Scene,
    form: &CellForm,
    tries: &mut Vec<Length>,
) -> Result<Option<Reach>, Memory> {
    let e = scene.left();
    let plain = try_at(ledger, scene, form, e, false)?;
    if plain.is_some() || scene.defects.is_empty() {
        return Ok(plain);
    }
    ledger.ticks.spend_half(scene.defects.len());
    note_tries(scene.task.sheet, scene, e, form.width, tries)?;
    let right = try_first(ledger, scene, form, tries.as_slice())?;
    if form.above.is_some() {
        return Ok(right);
    }
    let lifted = try_at(ledger, scene, form, e, true)?;
    Ok(lifted.or(right))
}

/// Puts a cell at each of these left sides where that is lawful, and lifted too where it is one item; tells how far
/// strip and band reach at the first place that was found, or at `found`.
fn try_all(
    ledger: &mut Ledger,
    scene: &Scene,
    form: &CellForm,
    tries: &[Length],
    found: Option<Reach>,
) -> Result<Option<Reach>, Memory> {
    let mut first = found;
    for e in tries {
        first = first.or(try_at(ledger, scene, form, *e, false)?);
        if form.above.is_none() {
            first = first.or(try_at(ledger, scene, form, *e, true)?);
        }
    }
    Ok(first)
}

/// Puts a cell right behind what there is, and where a defect shifts strip or band, so that they reach further than
/// `least`, at all places further right and lifted too; tells how far strip and band reach at the first place that was
/// found.
fn place_everywhere(
    ledger: &mut Ledger,
    scene: &Scene,
    form: &CellForm,
    least: Reach,
    tries: &mut Vec<Length>,
) -> Result<Option<Reach>, Memory> {
    let e = scene.left();
    let plain = try_at(ledger, scene, form, e, false)?;
    if plain == Some(least) || scene.defects.is_empty() {
        return Ok(plain);
    }
    ledger.ticks.spend_half(scene.defects.len());
    note_tries(scene.task.sheet, scene, e, form.width, tries)?;
    let found = try_all(ledger, scene, form, tries.as_slice(), plain)?;
    if form.above.is_some() {
        return Ok(found);
    }
    let lifted = try_at(ledger, scene, form, e, true)?;
    Ok(found.or(lifted))
}

/// Puts a cell right behind what there is, where strip and band reach as far as `least` at the least, or around the
/// defects that hinder it; tells how far they reach at one of the places that were found.
pub fn place(
    ledger: &mut Ledger,
    scene: &Scene,
    form: &CellForm,
    least: Reach,
    tries: &mut Vec<Length>,
) -> Result<Option<Reach>, Memory> {
    if scene.task.guide.more {
        place_everywhere(ledger, scene, form, least, tries)
    } else {
        place_first(ledger, scene, form, tries)
    }
}
