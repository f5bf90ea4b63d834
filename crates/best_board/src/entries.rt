//! The list of plans that were found.
ghost use Rattle.std.specs.Prelude.{◌≡◌, ◌↔◌, ◌<◌, ◌≤◌, IfSome, IsTrue, MatchOption};
ghost use Rattle.plan_trace.specs.Claims.{IsComplete};
ghost use Rattle.best_board.specs.Improvements.{found_in, last_loss as last_loss_of};

use crate::copying::{copy_instance, copy_trace};
use crate::entry::{Entry, Offered};
use cert_log::trace_loss;
use cut_model::Trace;
use defect_map::{DefectMap, Ground};
use glass_base::{Instance, Memory, Run, append};
use plan_trace::meets;
use std::alloc::Global;
use std::marker::Model;

/// Plans of one instance, in the order in which they were found. Each loses less than the one before.
#[derive(Drop)]
pub struct Entries {
    alloc: Global,
    instance: Instance,
    map: DefectMap,
    list: Run<Entry>,
}

impl Model for Entries {
    ghost use Rattle.std.specs.Prelude.{◌≡◌};
    ghost use Rattle.best_board.specs.Improvements.{AreImprovements, found_in};
    ghost use Rattle.best_board.specs.Kept.{Kept, kept};

    ghost Value = { Kept };

    ghost view = { λ a. kept a.instance (found_in a.list.items) };

    ghost invariant = { λ a. (a.map ≡ a.instance.defects) × AreImprovements a.instance (found_in a.list.items) };
}

/// Whether a trace has a step for each item and meets the rules.
pub(crate) fn is_complete(ground: Ground<'_>, trace: &Trace) -> bool
    ensures { IsTrue result ↔ IsComplete ground.entry.instance.now trace.now.steps.items }
{
    trace.steps.len() == ground.instance.items().len()
        && meets(ground.instance, ground.map, trace).is_ok()
}

/// The loss of the last plan of a list, if there is one.
fn last_loss(list: &[Entry]) -> Option<u64>
    ensures { result ≡ last_loss_of (found_in list.now) }
{
    match list.split_last() {
        Some((last, _before)) => Some(last.loss),
        None => None,
    }
}

/// The loss of the last plan of a list, where there is one and it loses no more than this.
fn last_at_most(list: &[Entry], loss: u64) -> Option<u64>
    ensures { let last = last_loss_of (found_in list.now) in
        MatchOption result (IfSome last (λ n. loss < n)) (λ n. (last ≡ Some n) × (n ≤ loss)) }
{
    let last = last_loss(list)?;
    if last <= loss { Some(last) } else { None }
}

impl Entries {
    ghost use Rattle.std.specs.Prelude.{◌≡◌, [], IfOk, OnErr};
    ghost use Rattle.glass_base.specs.Problem.{IsMadeOf};
    ghost use Rattle.best_board.specs.Improvements.{AreImprovements, found_in};
    ghost use Rattle.best_board.specs.Offers.{Offers};

    /// No plan yet, of this instance, of which a copy is kept.
    pub fn new(alloc: Global, instance: &Instance) -> Result<Entries, Memory>
        ensures instance { let b = instance.now in IfOk result
            (λ e. IsMadeOf e.instance b.params b.items b.defects b.widths) }
        ensures empty { IfOk result (λ e. e.found ≡ []) }
    {
        let instance = copy_instance(alloc, instance)?;
        let map = DefectMap::new(alloc, &instance)?;
        Ok(Entries {
            alloc,
            instance,
            map,
            list: Run::new(alloc),
        })
    }

    /// The plans, in the order in which they were entered. Each has a step for each item, meets the rules for the kept instance and has
    /// its loss; each loses less than those before it.
    pub fn list(&self) -> &[Entry]
        ensures value { found_in result.now ≡ self.now.found }
        ensures rules { AreImprovements self.now.instance self.now.found }
    {
        self.list.as_slice()
    }

    /// The kept instance with its map.
    fn ground(&self) -> Ground<'_>
        ensures { result.instance.now ≡ self.now.instance }
    {
        Ground {
            instance: &self.instance,
            map: &self.map,
        }
    }

    /// Enters a trace at the end of the list, with its loss, where it has a step for each item, meets the rules for the kept instance,
    /// and loses less than the last one. Else it is told why not, and the list stays as it was, as it does where memory runs out.
    pub fn offer(&mut self, trace: &Trace) -> Result<Offered, Memory>
        ensures offers { IfOk result (λ offered. Offers trace.now.steps.items self.old
            self.new offered) }
        ensures refused { OnErr result (self.new ≡ self.old) }
    {
        if !is_complete(self.ground(), trace) {
            return Ok(Offered::Broken);
        }
        let loss = trace_loss(&self.instance, trace);
        if let Some(last) = last_at_most(self.list.as_slice(), loss) {
            return Ok(Offered::Late(last));
        }
        let trace = copy_trace(self.alloc, trace)?;
        append(&mut self.list, Entry { loss, trace })?;
        Ok(Offered::Entered)
    }
}
