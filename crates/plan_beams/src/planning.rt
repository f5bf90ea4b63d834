//! Two beams, of which the second one goes by what the first one found; and wide beams behind them.

use crate::crew::{Alone, Crew};
use crate::hands::Hands;
use crate::pace::Pace;
use crate::paths::{FoundPath, trace_of};
use crate::rest::Remainder;
use crate::schedule::{BeamTurn, WideBeam, first_turn, second_turn, wide_turn};
use crate::searching::beam;
use crate::sheet::Sheet;
use crate::stock::Stock;
use crate::task::Task;
use cut_model::{Step, Trace};
use glass_base::{Instance, Listener, Memory, Nobody};
use std::alloc::Global;
use std::thread::Threads;

/// A trace that a beam found, and the loss in mm² that it counted. Nothing is promised of either.
#[derive(Drop)]
pub struct BeamPlan {
    pub trace: Trace,
    pub loss: u64,
}

/// What a wide beam found, if it found something, and the ticks that it took.
#[derive(Drop)]
pub struct Widely {
    pub found: Option<BeamPlan>,
    pub ticks: u64,
}

/// The trace of a path, with its loss.
fn found_on(
    alloc: Global,
    sheet: &Sheet,
    stock: &Stock,
    path: Option<FoundPath>,
) -> Result<Option<BeamPlan>, Memory> {
    match path {
        Some(path) => Ok(Some(BeamPlan {
            trace: trace_of(alloc, sheet, stock, path.nodes.as_slice())?,
            loss: path.loss.0,
        })),
        None => Ok(None),
    }
}

/// Beams over partial traces of one instance, or of what is left of it behind the first plates of a plan: two for a first
/// plan, and wide ones behind them.
///
/// The effort of each is counted in ticks of about 30 ns and not timed, so what it finds is the same on each machine.
/// A beam ends soon after so many ticks. It fails only where memory runs out.
#[derive(Drop)]
pub struct Beams {
    rest: Remainder,
    sheet: Sheet,
}

/// The pace of a beam that nobody is told of, and that no clock ends.
fn unheard() -> Pace<'static, Nobody> {
    Pace::new(&Nobody, 0, None)
}

impl Beams {
    /// The beams for an instance.
    pub fn new(alloc: Global, instance: &Instance) -> Result<Beams, Memory> {
        Beams::behind(alloc, instance, 0, &[])
    }

    /// The beams for what is left behind the first plates of a plan, where these are its steps on them. Each loss is that of the
    /// other plates alone, and a trace that is found has the steps on these.
    pub fn behind(
        alloc: Global,
        instance: &Instance,
        plates: u32,
        steps: &[Step],
    ) -> Result<Beams, Memory> {
        let rest = Remainder::behind(alloc, instance, plates, steps)?;
        let sheet = Sheet::new(alloc, instance, &rest)?;
        Ok(Beams { rest, sheet })
    }

    /// How many items are to be planned.
    pub fn items(&self) -> usize {
        self.rest.items
    }

    /// What they are together, in mm².
    pub fn area(&self) -> u64 {
        self.rest.area
    }

    /// The best trace of a beam, if it finds one, and the ticks that it took.
    fn take<H: Hands, L: Listener>(
        &self,
        alloc: Global,
        hands: &H,
        instance: &Instance,
        turn: BeamTurn,
        pace: &Pace<L>,
    ) -> Result<Widely, Memory>
        requires hands { H.can_work }
    {
        let stock = Stock::new(alloc, instance, &self.rest, &turn.guide)?;
        let task = Task {
            sheet: &self.sheet,
            stock: &stock,
            guide: turn.guide,
            best: turn.best,
            ticks: turn.ticks,
            widest: turn.widest,
        };
        let (path, ticks) = beam(alloc, hands, &task, pace)?;
        Ok(Widely {
            found: found_on(alloc, &self.sheet, &stock, path)?,
            ticks,
        })
    }

    /// The best trace of the first beam, whose loss tells what to expect, if it finds one.
    pub fn first(
        &self,
        alloc: Global,
        instance: &Instance,
        ticks: u64,
    ) -> Result<Option<BeamPlan>, Memory> {
        let turn = first_turn(ticks);
        let taken = self.take(alloc, &Alone, instance, turn, &unheard())?;
        Ok(taken.found)
    }

    /// The best trace of the second beam, which is to lose less than the first one lost, in mm², if it finds one.
    pub fn second(
        &self,
        alloc: Global,
        instance: &Instance,
        lost: Option<u64>,
        ticks: u64,
    ) -> Result<Option<BeamPlan>, Memory> {
        let turn = second_turn(&self.rest, lost, ticks);
        let taken = self.take(alloc, &Alone, instance, turn, &unheard())?;
        Ok(taken.found)
    }

    /// The best trace of a wide beam, if it finds one, and the ticks that it took. Each of its levels is spread over
    /// the crew's threads; what is found does not hang on them. How far the work is, is told after
    /// each level.
    pub fn wide<R: Threads + Sync, L: Listener>(
        &self,
        alloc: Global,
        crew: &Crew<R>,
        instance: &Instance,
        beam: WideBeam,
        pace: &Pace<L>,
    ) -> Result<Widely, Memory> {
        let waste = self.sheet.waste;
        self.take(
            alloc,
            crew,
            instance,
            wide_turn(&self.rest, waste, beam),
            pace,
        )
    }
}
