//! The children of a node.

use crate::fitting::{MOST_BEHIND, first_reach, note_behind};
use crate::form::{Base, CellForm, Forms};
use crate::ledger::Ledger;
use crate::measure::Length;
use crate::node::Begins;
use crate::placing::{is_late, least_waste, place};
use crate::scene::Scene;
use crate::shapes::Reach;
use crate::strip::{OpenStrip, ROOM, closed};
use crate::task::Task;
use glass_base::Memory;
use std::alloc::Global;

/// What the children of one node are made with. It is kept from node to node for its memory.
#[derive(Drop)]
pub struct Bench {
    forms: Forms,
    strip: OpenStrip,
    attempts: Attempts,
}

/// How the attempts to put the forms of a node went.
#[derive(Drop)]
struct Attempts {
    /// Left sides of cells right of defects.
    tries: Vec<Length>,
    /// Where bands begin above defects, or strips right of them.
    behind: Vec<Length>,
    /// Whether the plate takes a child.
    any: bool,
    /// Whether no form was passed over for its waste.
    hope: bool,
}

/// An empty strip from `x` on, on this plate, if there is such a plate.
fn strip_from<'b>(task: &'b Task<'b>, base: &Base<'b>, plate: u16, x: Length) -> Option<Scene<'b>> {
    match task.sheet.plates.get(usize::from(plate)) {
        Some(sheet) => Some(Scene {
            task,
            arena: base.arena,
            parent: base.parent,
            base: base.candidate,
            begins: Begins::Strip,
            plate,
            wide: sheet.wide,
            before: sheet.before,
            a: x,
            b: x,
            c: Length::ZERO,
            d: Length::ZERO,
            lax: Reach::ZERO,
            defects: &[],
            bands: &[],
            cells: &[],
        }),
        None => None,
    }
}

/// How far strip and band may reach.
fn furthest(scene: &Scene) -> Reach {
    Reach {
        b: scene.wide.min(scene.a + scene.task.sheet.max1),
        d: scene.task.sheet.high,
    }
}

/// Whether strip and band may reach so far.
fn is_within(scene: &Scene, reach: Reach) -> bool {
    let furthest = furthest(scene);
    reach.b <= furthest.b && reach.d <= furthest.d
}

/// Whether a cell leaves strip and band as they are, so that it needs no looser place: a cell that begins a band
/// leaves the strip.
fn is_snug(scene: &Scene, reach: Reach) -> bool {
    match scene.begins {
        Begins::Cell => reach.b == scene.b && reach.d == scene.d,
        Begins::Plate | Begins::Strip | Begins::Band => reach.b == scene.b,
    }
}

/// How far strip and band reach at the least with a form that is put behind a defect. A band is to leave the strip as
/// it is.
fn reach_behind(scene: &Scene, form: &CellForm) -> Reach {
    let reach = first_reach(scene.task.sheet, scene, &form.cell(scene.left(), false));
    match scene.begins {
        Begins::Band => Reach {
            b: scene.b,
            ..reach
        },
        Begins::Plate | Begins::Strip | Begins::Cell => reach,
    }
}

impl Attempts {
    /// Puts a form where strip and band reach as far as `least` at the least, or around the defects that hinder it.
    fn place(
        &mut self,
        ledger: &mut Ledger,
        scene: &Scene,
        form: &CellForm,
        least: Reach,
    ) -> Result<Option<Reach>, Memory> {
        let found = place(ledger, scene, form, least, &mut self.tries)?;
        if found.is_some() {
            self.any = true;
        }
        Ok(found)
    }

    /// Puts a form into new bands above defects, or into new strips right of them.
    fn put_behind(
        &mut self,
        ledger: &mut Ledger,
        scene: &Scene,
        form: &CellForm,
    ) -> Result<(), Memory> {
        note_behind(scene.task.sheet, scene, &mut self.behind)?;
        for number in 0..MOST_BEHIND {
            let Some(side) = self.behind.get(number).copied() else {
                return Ok(());
            };
            let behind = scene.begun_at(side);
            let least = reach_behind(&behind, form);
            if least.b <= scene.wide && least.d <= scene.task.sheet.high {
                self.place(ledger, &behind, form, least)?;
            }
        }
        Ok(())
    }

    /// Puts a form that has no snug place yet.
    fn put(
        &mut self,
        ledger: &mut Ledger,
        scene: &Scene,
        form: &mut CellForm,
    ) -> Result<(), Memory> {
        if form.done {
            return Ok(());
        }
        let e = scene.left();
        let least = first_reach(scene.task.sheet, scene, &form.cell(e, false));
        if !is_within(scene, least) {
            return Ok(());
        }
        if is_late(scene, form, e, least) {
            self.hope = false;
            return Ok(());
        }
        let found = self.place(ledger, scene, form, least)?;
        if let Some(reach) = found {
            form.done = !scene.task.guide.loose && is_snug(scene, reach);
        }
        if scene.task.guide.more && found != Some(least) && scene.begins.is_band() {
            return self.put_behind(ledger, scene, form);
        }
        Ok(())
    }

    /// Puts each of these forms. Once one was passed over for its waste, nothing hangs on others that would be too,
    /// wherever they are put.
    fn put_each(
        &mut self,
        ledger: &mut Ledger,
        scene: &Scene,
        forms: &mut Forms,
    ) -> Result<(), Memory> {
        let least = least_waste(scene);
        if !self.hope && least >= forms.limit {
            return Ok(());
        }
        let furthest = furthest(scene);
        let e = scene.left();
        for form in forms.list.iter_mut() {
            let is_within = e + form.width <= furthest.b && scene.c + form.height <= furthest.d;
            if is_within && (self.hope || least < form.limit) {
                self.put(ledger, scene, form)?;
            }
        }
        Ok(())
    }
}

impl Bench {
    /// A bench on which no form is wider than `widest`.
    pub fn new(alloc: Global, widest: Length) -> Result<Bench, Memory> {
        Ok(Bench {
            forms: Forms::new(alloc, widest)?,
            strip: OpenStrip::new(alloc)?,
            attempts: Attempts {
                tries: Vec::with_capacity(alloc, ROOM)?,
                behind: Vec::with_capacity(alloc, ROOM)?,
                any: false,
                hope: true,
            },
        })
    }

    /// Offers the children of a node: cells in its band, bands in its strip, strips on its plate, and where none of
    /// these finds a place and none was passed over, strips on the next plate.
    pub fn expand<'b>(
        &mut self,
        task: &'b Task<'b>,
        ledger: &mut Ledger,
        base: &Base<'b>,
    ) -> Result<(), Memory> {
        self.forms.note(task, ledger, base)?;
        let forms = self.forms.list.len() as u64;
        ledger.ticks.spend(forms.wrapping_add(40));
        self.attempts.any = false;
        self.attempts.hope = true;
        let mut next = 0;
        if base.parent.is_some() {
            let node = &base.candidate.node;
            if let Some(open) = strip_from(task, base, node.plate, node.b.into()) {
                self.stay(ledger, &open)?;
            }
            next = node.plate.saturating_add(1);
        }
        if self.attempts.any || !self.attempts.hope {
            return Ok(());
        }
        self.begin_plate(task, ledger, base, next)
    }

    /// Offers strips on a plate that a node begins.
    fn begin_plate<'b>(
        &mut self,
        task: &'b Task<'b>,
        ledger: &mut Ledger,
        base: &Base<'b>,
        plate: u16,
    ) -> Result<(), Memory> {
        match strip_from(task, base, plate, Length::ZERO) {
            Some(strip) => {
                let begun = Scene {
                    begins: Begins::Plate,
                    ..strip
                };
                self.put_strips(ledger, &begun)
            }
            None => Ok(()),
        }
    }

    /// Offers the children on a node's own plate; `next` is the strip beside its own.
    fn stay(&mut self, ledger: &mut Ledger, next: &Scene) -> Result<(), Memory> {
        let node = &next.base.node;
        let left = Length::from(node.a);
        let right = left + next.task.sheet.max1;
        self.strip.note(next.arena, node)?;
        self.strip.note_defects(next.task.sheet, node.plate, left, right, &mut ledger.ticks)?;
        self.put_cells(ledger, next)?;
        self.put_bands(ledger, next)?;
        let strip = Scene {
            lax: Reach {
                b: self.strip.lax_b(next.task.sheet, node),
                d: Length::ZERO,
            },
            ..*next
        };
        self.put_strips(ledger, &strip)
    }

    /// Offers cells in the open band.
    fn put_cells(&mut self, ledger: &mut Ledger, next: &Scene) -> Result<(), Memory> {
        let node = &next.base.node;
        let scene = Scene {
            begins: Begins::Cell,
            a: node.a.into(),
            c: node.c.into(),
            d: node.d.into(),
            lax: node.lax(),
            defects: self.strip.defects.as_slice(),
            bands: closed(self.strip.bands.as_slice()),
            cells: self.strip.cells.as_slice(),
            ..*next
        };
        self.attempts.put_each(ledger, &scene, &mut self.forms)
    }

    /// Offers bands in the open strip.
    fn put_bands(&mut self, ledger: &mut Ledger, next: &Scene) -> Result<(), Memory> {
        let node = &next.base.node;
        let scene = Scene {
            begins: Begins::Band,
            a: node.a.into(),
            c: node.d.into(),
            d: node.d.into(),
            lax: Reach {
                b: node.lax_b.into(),
                d: self.strip.lax_d(node),
            },
            defects: self.strip.defects.as_slice(),
            bands: self.strip.bands.as_slice(),
            ..*next
        };
        self.attempts.put_each(ledger, &scene, &mut self.forms)
    }

    /// Offers the first cells of a new strip.
    fn put_strips(&mut self, ledger: &mut Ledger, strip: &Scene) -> Result<(), Memory> {
        self.strip.note_defects(
            strip.task.sheet,
            strip.plate,
            strip.a,
            strip.wide,
            &mut ledger.ticks,
        )?;
        let scene = Scene {
            defects: self.strip.defects.as_slice(),
            ..*strip
        };
        self.attempts.put_each(ledger, &scene, &mut self.forms)
    }
}
