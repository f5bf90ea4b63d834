//! What one worker holds.
ghost use Rattle.std.specs.Prelude.{◌≡◌, ◌≤◌, [], IfOk, OnOk, MatchBool, length};
ghost use Rattle.box_bound.specs.Leastings.{IsOf};
ghost use Rattle.cert_log.specs.Lawful.{no_loss};
ghost use Rattle.box_workers.specs.Handling.{IsIdle};
ghost use Rattle.box_workers.specs.inner.Hands.{Serves, CanKeep, IsKept};
ghost use Rattle.box_workers.specs.inner.Spares.{HasRoomFor};

use crate::spares::Spares;
use box_bound::Leasts;
use cert_log::{Left, Note};
use cut_model::{Step, Trace};
use glass_base::{Instance, Memory, Run};
use plan_box::PlanBox;
use shared_best::NONE;
use std::alloc::Global;
use std::mem;

/// What one worker holds: its notes, the boxes that it left open, its best plan, and what it needs to handle a box.
#[derive(Drop)]
pub struct Hand {
    /// The number of the worker, from 0 on.
    pub worker: u32,
    /// A note for each box that it handled, in order.
    pub log: Run<Note>,
    /// The boxes that it left open, each with its bound.
    pub left: Run<Left>,
    /// The best plan that it found, as a trace.
    pub plan: Option<Trace>,
    /// The loss of that plan in mm², or `shared_best::NONE` without one.
    pub loss: u64,
    /// A trace with a step for each item, which a probe writes over.
    pub scratch: Trace,
    /// A second one, where no plan has been found yet whose trace could be written over. It is made when the first box is handled.
    pub spare: Option<Trace>,
    /// The least values of the box that it handled last.
    pub leasts: Leasts,
    /// Memory for the halves of boxes.
    pub(crate) spares: Spares,
}

/// A trace with a step for each item, which is written over before it is read.
fn blank_trace(alloc: Global, instance: &Instance) -> Result<Trace, Memory>
    ensures { IfOk result (λ t. length t.steps.items ≡ length instance.now.items) }
{
    let steps = Vec::from_elem(alloc, Step::NONE, instance.items().len())?;
    Ok(Trace {
        steps: Run::from(steps),
    })
}

impl Hand {
    /// The hand of the worker of this number, for boxes of this instance, with no notes and no plan. Only want of memory is refused.
    pub fn new(alloc: Global, instance: &Instance, worker: u32) -> Result<Hand, Memory>
        ensures worker { IfOk result (λ h. h.worker ≡ worker) }
        ensures log { IfOk result (λ h. h.log.items ≡ []) }
        ensures left { IfOk result (λ h. h.left.items ≡ []) }
        ensures plan { IfOk result (λ h. (h.plan ≡ None) × (h.loss ≡ no_loss)) }
        ensures scratch { IfOk result (λ h. length h.scratch.steps.items
            ≡ length instance.now.items) }
        ensures leasts { IfOk result (λ h. IsOf instance.now h.leasts) }
    {
        Ok(Hand {
            worker,
            log: Run::new(alloc),
            left: Run::new(alloc),
            plan: None,
            loss: NONE,
            scratch: blank_trace(alloc, instance)?,
            spare: None,
            leasts: Leasts::new(alloc, instance)?,
            spares: Spares::new(alloc),
        })
    }
}

/// Whether there is a trace that has so many steps that it can serve as a scratch.
fn can_serve(trace: &Option<Trace>, items: usize) -> bool
    ensures { MatchBool result (Serves items trace.now) (¬ Serves items trace.now) }
{
    match trace {
        None => false,
        Some(trace) => trace.steps.len() == items,
    }
}

/// All memory that the handling of a box takes: a place in the log, room for its two halves, and, once for a hand, a second trace, where
/// the plan's cannot serve as the next scratch.
pub(crate) fn prepare(
    alloc: Global,
    instance: &Instance,
    hand: &mut Hand,
    bx: &PlanBox,
) -> Result<(), Memory>
    ensures idle { IsIdle hand.old hand.new }
    ensures leasts { hand.new.leasts ≡ hand.old.leasts }
    ensures log { OnOk result (1 ≤ hand.new.log.spare) }
    ensures room { OnOk result (HasRoomFor bx.now hand.new.spares) }
    ensures trace { OnOk result (CanKeep instance.now hand.new.plan hand.new.spare) }
{
    hand.log.reserve(1)?;
    hand.spares.prepare(bx)?;
    let items = instance.items().len();
    if !can_serve(&hand.plan, items) && !can_serve(&hand.spare, items) {
        hand.spare = Some(blank_trace(alloc, instance)?);
    }
    Ok(())
}

/// The scratch becomes the plan, which has this loss. The trace of the plan before, or the spare one, becomes the scratch.
pub(crate) fn keep(hand: &mut Hand, loss: u64, instance: &Instance)
    requires { CanKeep instance.now hand.old.plan hand.old.spare }
    ensures kept { IsKept instance.now loss hand.old hand.new }
    ensures leasts { hand.new.leasts ≡ hand.old.leasts }
{
    let next = if can_serve(&hand.plan, instance.items().len()) {
        hand.plan.take()
    } else {
        hand.spare.take()
    };
    let Some(scratch) = next else {
        unreachable!();
    };
    hand.plan = Some(mem::replace(&mut hand.scratch, scratch));
    hand.loss = loss;
}
