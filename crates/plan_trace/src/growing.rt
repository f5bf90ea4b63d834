//! The canonical plan of a trace, from its last step to its first.

ghost use Rattle.std.specs.Prelude.{◌≡◌, ◌+◌, ◌-◌, ◌<◌, ◌^◌, IfOk, OnOk, reverse};
ghost use Rattle.glass_base.specs.Plates.{Width};
ghost use Rattle.cut_model.specs.Tree.{nothing, piece, bands as bands_in, cells as cells_in, inner1, inner2, inner3, sort1, sort2, sort3, tree};
ghost use Rattle.cut_model.specs.declared.family.Sort.TheVariants as sort;
ghost use Rattle.plan_trace.specs.Canonical.{add_band as band_added, add_cell as cell_added, add_plate as plate_added, add_step as step_added, add_strip as strip_added, cell_pieces, end_sort, gap, grown, hoisted_inner, hoisted_sort, item_id};
ghost use Rattle.plan_trace.specs.inner.Laid.{cut_of};
ghost use Rattle.plan_trace.specs.declared.level.Level.TheVariants.{NewBand, NewPlate, NewStrip};
ghost use Rattle.plan_trace.specs.inner.Piles.{bands_pile, cells_pile, grown_of, item_alone2 as item_alone2_of, item_alone3 as item_alone3_of, item_in2 as item_in2_of, item_in3 as item_in3_of, plates_pile, spots_of, start_in, strips_pile, without_bands, without_cells};

use crate::laid::Laid;
use crate::level::Level;
use cut_model::{Body1, Body2, Body3, Body4, Leaf4, Piece1, Piece2, Piece3, Plan, Plate};
use glass_base::{Instance, Item, Memory, Params, Run, append};
use std::alloc::Global;
use std::mem;

/// What some last steps of a trace give: whole plates, and the strips, bands and cells that still lack what stands before them.
/// Each list has its first piece at its end.
#[derive(Drop)]
pub(crate) struct Growth {
    pub plates: Run<Plate>,
    pub strips: Run<Piece1>,
    /// The left side of the first strip.
    pub left: u32,
    pub bands: Run<Piece2>,
    /// The lower side of the first band.
    pub low: u32,
    pub cells: Run<Piece3>,
    /// The left side of the first cell.
    pub from: u32,
    /// Height and number of the item that stands over the one before.
    pub above: Option<(u32, u32)>,
}

/// Where the first of these pieces begins, or the end where there is none.
fn start_of<T>(pieces: &[T], start: u32, end: u32) -> u32
    ensures { result ≡ start_in pieces.now start end }
{
    if pieces.is_empty() { end } else { start }
}

/// The size of what lies between two places.
fn size_between(from: u64, to: u32) -> u32
    ensures { result ≡ to - from }
{
    u64::from(to).saturating_sub(from) as u32
}

/// Puts a waste before cells, where there is glass between two places.
fn put_cell_waste(cells: &mut Run<Piece3>, from: u64, to: u32) -> Result<(), Memory>
    ensures { OnOk result (cells_pile cells.new.items
        ≡ gap from to sort.Waste (cells_pile cells.old.items)) }
{
    if from != u64::from(to) {
        append(
            cells,
            Piece3 {
                width: size_between(from, to),
                body: Body3::Waste,
            },
        )?;
    }
    Ok(())
}

/// Puts a waste before bands, where there is glass between two places.
fn put_band_waste(bands: &mut Run<Piece2>, from: u64, to: u32) -> Result<(), Memory>
    ensures { OnOk result (bands_pile bands.new.items
        ≡ gap from to sort.Waste (bands_pile bands.old.items)) }
{
    if from != u64::from(to) {
        append(
            bands,
            Piece2 {
                height: size_between(from, to),
                body: Body2::Waste,
            },
        )?;
    }
    Ok(())
}

/// Puts a piece of this kind before strips, where there is glass between two places.
fn put_rest(strips: &mut Run<Piece1>, from: u64, to: u32, body: Body1) -> Result<(), Memory>
    requires { inner1 body ≡ nothing }
    ensures { OnOk result (strips_pile strips.new.items
        ≡ gap from to (sort1 body) (strips_pile strips.old.items)) }
{
    if from != u64::from(to) {
        append(
            strips,
            Piece1 {
                width: size_between(from, to),
                body,
            },
        )?;
    }
    Ok(())
}

/// The number of a step's item.
fn number_of(item: Option<Item>) -> u32
    ensures { result ≡ item_id item }
{
    match item {
        None => 0,
        Some(item) => item.id,
    }
}

/// What becomes of a step's cell: two items, or one, alone or with a waste.
fn cell_body(above: Option<(u32, u32)>, lift: u32, height: u32, h: u32, number: u32) -> Body3
    ensures sort { sort3 result ≡ hoisted_sort (cell_pieces above lift height h number) }
    ensures inner { inner3 result ≡ hoisted_inner (cell_pieces above lift height h number) }
{
    let item = Leaf4 {
        height: h,
        body: Body4::Item(number),
    };
    if let Some((height, number)) = above {
        let over = Leaf4 {
            height,
            body: Body4::Item(number),
        };
        return Body3::Two(item, over);
    }
    if h == height {
        return Body3::Item(number);
    }
    let waste = Leaf4 {
        height: height.saturating_sub(h),
        body: Body4::Waste,
    };
    if lift == 0 {
        Body3::Two(item, waste)
    } else {
        Body3::Two(waste, item)
    }
}

/// A list from its end to its beginning.
fn turned_round<T: Drop>(alloc: Global, run: Run<T>) -> Result<Run<T>, Memory>
    ensures { IfOk result (λ turned. turned.items ≡ reverse run.items) }
{
    let mut run = run;
    let mut turned = Run::new(alloc);
    while let Some(value) = run.pop() {
        append(&mut turned, value)?;
    }
    Ok(turned)
}

/// The item of a cell that is one.
fn item_in3(body: &Body3) -> Option<u32>
    ensures { result ≡ item_in3_of body.now }
{
    match body {
        Body3::Item(number) => Some(*number),
        Body3::Waste => None,
        Body3::Two(_, _) => None,
    }
}

/// The item that is the only cell of a band.
fn item_alone3(cells: &[Piece3]) -> Option<u32>
    ensures { result ≡ item_alone3_of cells.now }
{
    match cells {
        [cell] => item_in3(&cell.body),
        _ => None,
    }
}

/// What becomes of a band that is cut into these cells.
fn body_of_band(cells: Run<Piece3>) -> Body2
    ensures sort { sort2 result ≡ hoisted_sort (cells_in cells.items) }
    ensures inner { inner2 result ≡ hoisted_inner (cells_in cells.items) }
{
    match item_alone3(cells.as_slice()) {
        Some(number) => Body2::Item(number),
        None => Body2::Cut(cells),
    }
}

/// The item of a band that is one.
fn item_in2(body: &Body2) -> Option<u32>
    ensures { result ≡ item_in2_of body.now }
{
    match body {
        Body2::Item(number) => Some(*number),
        Body2::Waste => None,
        Body2::Cut(_) => None,
    }
}

/// The item that is the only band of a strip.
fn item_alone2(bands: &[Piece2]) -> Option<u32>
    ensures { result ≡ item_alone2_of bands.now }
{
    match bands {
        [band] => item_in2(&band.body),
        _ => None,
    }
}

/// What becomes of a strip that is cut into these bands.
fn body_of_strip(bands: Run<Piece2>) -> Body1
    ensures sort { sort1 result ≡ hoisted_sort (bands_in bands.items) }
    ensures inner { inner1 result ≡ hoisted_inner (bands_in bands.items) }
{
    match item_alone2(bands.as_slice()) {
        Some(number) => Body1::Item(number),
        None => Body1::Cut(bands),
    }
}

/// Puts the cell of a step before the others.
fn add_cell(growth: &mut Growth, s: &Laid) -> Result<(), Memory>
    ensures { OnOk result (grown_of growth.new ≡ cell_added (cut_of s.now) (grown_of growth.old)) }
{
    let start = start_of(growth.cells.as_slice(), growth.from, s.step.b);
    let end = u64::from(s.step.e) + u64::from(s.w);
    put_cell_waste(&mut growth.cells, end, start)?;
    let height = s.step.d.saturating_sub(s.step.c);
    let body = cell_body(growth.above, s.step.lift, height, s.h, number_of(s.item));
    append(&mut growth.cells, Piece3 { width: s.w, body })?;
    growth.from = s.step.e;
    growth.above = None;
    Ok(())
}

/// What becomes of the cells that have grown, as a band from this left side on.
fn take_band(alloc: Global, growth: &mut Growth, left: u32) -> Result<Body2, Memory>
    ensures sort { IfOk result (λ body. sort2 body
        ≡ hoisted_sort (gap left growth.old.from sort.Waste (cells_pile growth.old.cells.items))) }
    ensures inner { IfOk result (λ body. inner2 body
        ≡ hoisted_inner (gap left growth.old.from sort.Waste (cells_pile growth.old.cells.items))) }
    ensures rest { IfOk result (λ _. grown_of growth.new ≡ without_cells (grown_of growth.old)) }
{
    put_cell_waste(&mut growth.cells, u64::from(left), growth.from)?;
    let cells = mem::replace(&mut growth.cells, Run::new(alloc));
    Ok(body_of_band(turned_round(alloc, cells)?))
}

/// Puts the band of a step, with the cells that have grown, before the others.
fn add_band(alloc: Global, params: &Params, growth: &mut Growth, s: &Laid) -> Result<(), Memory>
    ensures { OnOk result (grown_of growth.new
        ≡ band_added params.now (cut_of s.now) (grown_of growth.old)) }
{
    let body = take_band(alloc, growth, s.step.a)?;
    let start = start_of(growth.bands.as_slice(), growth.low, params.height);
    put_band_waste(&mut growth.bands, u64::from(s.step.d), start)?;
    let height = s.step.d.saturating_sub(s.step.c);
    append(&mut growth.bands, Piece2 { height, body })?;
    growth.low = s.step.c;
    Ok(())
}

/// What becomes of the bands that have grown, as a strip.
fn take_strip(alloc: Global, growth: &mut Growth) -> Result<Body1, Memory>
    ensures sort { IfOk result (λ body. sort1 body
        ≡ hoisted_sort (gap 0 growth.old.low sort.Waste (bands_pile growth.old.bands.items))) }
    ensures inner { IfOk result (λ body. inner1 body
        ≡ hoisted_inner (gap 0 growth.old.low sort.Waste (bands_pile growth.old.bands.items))) }
    ensures rest { IfOk result (λ _. grown_of growth.new ≡ without_bands (grown_of growth.old)) }
{
    put_band_waste(&mut growth.bands, 0, growth.low)?;
    let bands = mem::replace(&mut growth.bands, Run::new(alloc));
    Ok(body_of_strip(turned_round(alloc, bands)?))
}

/// What the glass behind the last strip of a plate is: the residual where nothing follows, else a waste.
#[tactic(auto, using(crate::proofs::Piling::end_pile))]
fn end_body(growth: &Growth) -> Body1
    ensures sort { sort1 result ≡ end_sort (plates_pile growth.now.plates.items)
        (strips_pile growth.now.strips.items) }
    ensures inner { inner1 result ≡ nothing }
{
    if growth.plates.is_empty() && growth.strips.is_empty() {
        Body1::Residual
    } else {
        Body1::Waste
    }
}

/// Puts the strip of a step, with the bands that have grown, before the others.
fn add_strip(
    alloc: Global,
    instance: &Instance,
    growth: &mut Growth,
    s: &Laid,
) -> Result<(), Memory>
    ensures { OnOk result (grown_of growth.new
        ≡ strip_added instance.now (cut_of s.now) (grown_of growth.old)) }
{
    let body = take_strip(alloc, growth)?;
    let end = instance.width(s.plates.saturating_sub(1));
    let start = start_of(growth.strips.as_slice(), growth.left, end);
    let rest = end_body(growth);
    put_rest(&mut growth.strips, u64::from(s.step.b), start, rest)?;
    let width = s.step.b.saturating_sub(s.step.a);
    append(&mut growth.strips, Piece1 { width, body })?;
    growth.left = s.step.a;
    Ok(())
}

/// Puts a plate, with the strips that have grown, before the others.
fn add_plate(alloc: Global, growth: &mut Growth) -> Result<(), Memory>
    ensures { OnOk result (grown_of growth.new ≡ plate_added (grown_of growth.old)) }
{
    put_rest(&mut growth.strips, 0, growth.left, Body1::Waste)?;
    let strips = mem::replace(&mut growth.strips, Run::new(alloc));
    let pieces = turned_round(alloc, strips)?;
    append(&mut growth.plates, Plate { pieces })
}

/// Puts the band of a step, with its cell, before the others.
fn begin_band(
    alloc: Global,
    instance: &Instance,
    growth: &mut Growth,
    s: &Laid,
) -> Result<(), Memory>
    ensures { OnOk result (grown_of growth.new
        ≡ step_added instance.now NewBand (cut_of s.now) (grown_of growth.old)) }
{
    add_cell(growth, s)?;
    add_band(alloc, instance.params(), growth, s)
}

/// Puts the strip of a step, with its band, before the others.
fn begin_strip(
    alloc: Global,
    instance: &Instance,
    growth: &mut Growth,
    s: &Laid,
) -> Result<(), Memory>
    ensures { OnOk result (grown_of growth.new
        ≡ step_added instance.now NewStrip (cut_of s.now) (grown_of growth.old)) }
{
    begin_band(alloc, instance, growth, s)?;
    add_strip(alloc, instance, growth, s)
}

/// Puts the plate of a step, with its strip, before the others.
fn begin_plate(
    alloc: Global,
    instance: &Instance,
    growth: &mut Growth,
    s: &Laid,
) -> Result<(), Memory>
    ensures { OnOk result (grown_of growth.new
        ≡ step_added instance.now NewPlate (cut_of s.now) (grown_of growth.old)) }
{
    begin_strip(alloc, instance, growth, s)?;
    add_plate(alloc, growth)
}

/// Puts a step before the others.
fn add_step(alloc: Global, instance: &Instance, growth: &mut Growth, s: &Laid) -> Result<(), Memory>
    ensures { OnOk result (grown_of growth.new
        ≡ step_added instance.now s.now.level (cut_of s.now) (grown_of growth.old)) }
{
    match s.level {
        Level::NewPlate => begin_plate(alloc, instance, growth, s),
        Level::NewStrip => begin_strip(alloc, instance, growth, s),
        Level::NewBand => begin_band(alloc, instance, growth, s),
        Level::NewCell => add_cell(growth, s),
        Level::Over => {
            growth.above = Some((s.h, number_of(s.item)));
            Ok(())
        }
    }
}

/// The plan that steps give.
pub(crate) fn grow(alloc: Global, instance: &Instance, steps: &[Laid]) -> Result<Plan, Memory>
    ensures { IfOk result (λ plan. tree plan ≡ (grown instance.now (spots_of steps.now)).plates) }
{
    let mut growth = Growth {
        plates: Run::new(alloc),
        strips: Run::new(alloc),
        left: 0,
        bands: Run::new(alloc),
        low: 0,
        cells: Run::new(alloc),
        from: 0,
        above: None,
    };
    let mut left = steps.len();
    while left > 0 {
        left -= 1;
        add_step(alloc, instance, &mut growth, &steps[left])?;
    }
    let plates = turned_round(alloc, growth.plates)?;
    Ok(Plan { plates })
}
