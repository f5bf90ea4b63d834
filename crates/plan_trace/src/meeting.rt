//! Whether a trace meets the rules.

ghost use Rattle.std.specs.Prelude.{◌≡◌, ◌↔◌, ◌<◌, ◌^◌, All, IsTrue, length, MatchOption, MatchResult};
ghost use Rattle.plan_trace.specs.Broken.{BreaksFirst, IsFirstBroken, RuleHolds};
ghost use Rattle.plan_trace.specs.inner.Asked.{IsOnDefects, rules_before};
ghost use Rattle.plan_trace.specs.inner.Laid.{ahead, cut_of, IsFitted};
ghost use Rattle.plan_trace.specs.TraceRules.{KeepsTraceRule, Meets};

use crate::laid::Laid;
use crate::lines::{keeps8, keeps9};
use crate::rules::{keeps1, keeps2, keeps3, keeps4, keeps5, keeps6, keeps7};
use crate::trace_rule::TraceRule;
use cut_model::{Step, Trace};
use defect_map::{DefectMap, Ground};
use glass_base::Instance;
use thiserror::Error;

/// The first rule that a trace breaks, by its number from 1 on, and the first step that breaks it, from 0 on.
#[derive(Clone, Copy, Debug, Error)]
#[error("step {step} breaks rule {rule}")]
pub struct TraceBroken {
    pub rule: u32,
    pub step: u32,
}

/// Whether a step keeps this rule.
fn keeps(ground: Ground<'_>, rule: TraceRule, last: &Laid, here: &Laid, later: &[Step]) -> bool
    requires fitted { IsOnDefects rule → IsFitted here.now }
    ensures { IsTrue result ↔ KeepsTraceRule ground.entry.instance.now rule last.now.level
        (cut_of last.now) here.now.level (cut_of here.now) (ahead later.now) }
{
    let params = ground.instance.params();
    match rule {
        TraceRule::TR1 => keeps1(params, here),
        TraceRule::TR2 => keeps2(here),
        TraceRule::TR3 => keeps3(last, here),
        TraceRule::TR4 => keeps4(ground.instance, last, here, later),
        TraceRule::TR5 => keeps5(params, last, here, later),
        TraceRule::TR6 => keeps6(params, last, here, later),
        TraceRule::TR7 => keeps7(params, last, here, later),
        TraceRule::TR8 => keeps8(ground, here),
        TraceRule::TR9 => keeps9(ground, here),
    }
}

/// The first step that breaks a rule, where no rule before it is broken.
fn first_step(ground: Ground<'_>, steps: &[Step], rule: TraceRule) -> Option<u32>
    requires few { length steps.now < 2 ^ 32 }
    requires before { All (RuleHolds ground.instance.now steps.now) (rules_before rule) }
    ensures { let b = ground.entry.instance.now in
        MatchOption result (RuleHolds b steps.now rule) (BreaksFirst b steps.now rule) }
{
    let mut last = Laid::none();
    for (i, step) in steps.iter().enumerate() {
        let here = last.next(ground.instance, &steps[..i], *step);
        if !keeps(ground, rule, &last, &here, &steps[i + 1..]) {
            return Some(i as u32);
        }
        last = here;
    }
    None
}

/// The first rule that these steps break: `meets` on a list of steps that is no trace of its own.
pub fn first_broken(ground: Ground<'_>, steps: &[Step]) -> Option<TraceBroken>
    requires few { length steps.now < 2 ^ 32 }
    ensures { let b = ground.entry.instance.now in
        MatchOption result (Meets b steps.now)
        (λ broken. IsFirstBroken b steps.now broken.rule broken.step) }
{
    for rule in TraceRule::ALL {
        if let Some(step) = first_step(ground, steps, rule) {
            return Some(TraceBroken {
                rule: rule.number(),
                step,
            });
        }
    }
    None
}

/// Whether a trace meets the nine rules, for a list of any number of steps. Else the least rule that it breaks, and the least
/// step that breaks it: a rule on two steps is broken at the later one, a rule on a strip, a band or a cell at the step that
/// begins it.
///
/// It takes no memory.
pub fn meets(instance: &Instance, map: &DefectMap, trace: &Trace) -> Result<(), TraceBroken>
    requires few { length trace.now.steps.items < 2 ^ 32 }
    requires map { map.now ≡ instance.now.defects }
    ensures { let steps = trace.now.steps.items in
        MatchResult result (λ _. Meets instance.now steps)
        (λ broken. IsFirstBroken instance.now steps broken.rule broken.step) }
{
    match first_broken(Ground { instance, map }, trace.steps.as_slice()) {
        Some(broken) => Err(broken),
        None => Ok(()),
    }
}
