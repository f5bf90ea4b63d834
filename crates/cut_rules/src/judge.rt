//! The judge of a plan's cuts, which takes no memory.

ghost use Rattle.std.specs.Prelude.{◌≡◌, ◌↔◌, All, Some, IsOk, IfErr, MatchOption};
ghost use Rattle.cut_model.specs.Families.{families_of};
ghost use Rattle.cut_model.specs.Fits.{Fits};
ghost use Rattle.cut_model.specs.Rules.{KeepsCutRules};
ghost use Rattle.cut_model.specs.Tree.{tree};
ghost use Rattle.cut_model.specs.Visits.{IsSmall};
ghost use Rattle.cut_rules.specs.Breaches.{IsBreach, IsBreachOf, KeepsCutRule};
ghost use Rattle.cut_rules.specs.inner.Tests.{BreaksWith, Watched};

use crate::cut_rule::CutRule;
use crate::rules::breach;
use cut_model::{Broken, Family, Plan, Rule, Visitor, walk};
use defect_map::{DefectMap, Ground};
use glass_base::Instance;
use std::convert::Infallible;

/// The breach of this rule by a piece, if it breaks it.
fn breach_at(ground: Ground<'_>, rule: CutRule, family: &Family) -> Option<Broken>
    requires small { IsSmall family.now }
    ensures { let b = ground.entry.instance.now in
        MatchOption result (KeepsCutRule b rule family.now) (BreaksWith b rule family.now) }
{
    let (left, right) = breach(ground, rule, family)?;
    Some(Broken {
        rule: Rule::from(rule),
        plate: family.row.plate,
        node: family.row.node,
        left,
        right,
    })
}

/// The first breach of one rule, among the pieces told so far.
#[derive(Drop)]
struct Watch<'a> {
    ground: Ground<'a>,
    rule: CutRule,
    first: Option<Broken>,
}

/// The first breach, after one more piece.
fn first_or_breach(watch: &Watch<'_>, family: &Family) -> Option<Broken>
    requires { IsSmall family.now }
    ensures { MatchOption watch.now.first (MatchOption result
        (KeepsCutRule watch.now.ground.instance.now watch.now.rule family.now)
        (BreaksWith watch.now.ground.instance.now watch.now.rule family.now))
        (λ broken. result ≡ Some broken) }
{
    match watch.first {
        Some(broken) => Some(broken),
        None => breach_at(watch.ground, watch.rule, family),
    }
}

impl<'a> Visitor for Watch<'a> {
    ghost use Rattle.cut_rules.specs.inner.Tests.{Watched};

    type Stop = Infallible;

    ghost has_seen = { λ start now seen.
        (now.ground.instance.now ≡ start.ground.instance.now)
        × (now.rule ≡ start.rule)
        × Watched start.ground.instance.now start.rule seen now.first };

    fn visit(&mut self, family: &Family) -> Result<(), Infallible> {
        self.first = first_or_breach(self, family);
        Ok(())
    }
}

/// The first breach of this rule, if some piece breaks it.
fn first_breach(ground: Ground<'_>, plan: &Plan, rule: CutRule) -> Option<Broken>
    requires fits { Fits (tree plan.now) }
    ensures { let b = ground.entry.instance.now in
        Watched b rule (families_of b (tree plan.now)) result }
{
    let mut watch = Watch {
        ground,
        rule,
        first: None,
    };
    match walk(&mut watch, ground.instance, plan) {
        Ok(()) => watch.first,
        Err(never) => match never {},
    }
}

const CUT_RULES: [CutRule; 8] = [
    CutRule::L1,
    CutRule::L2,
    CutRule::L3,
    CutRule::L4,
    CutRule::L5,
    CutRule::L6,
    CutRule::L7,
    CutRule::L8,
];

/// The first breach of the first of these rules that some piece breaks.
fn first_of(ground: Ground<'_>, plan: &Plan, rules: &[CutRule]) -> Option<Broken>
    requires fits { Fits (tree plan.now) }
    ensures { let b = ground.entry.instance.now in let fs = families_of b (tree plan.now) in
        MatchOption result (All (λ rule. All (KeepsCutRule b rule) fs) rules.now)
        (IsBreachOf b fs rules.now) }
{
    for rule in rules {
        match first_breach(ground, plan, *rule) {
            Some(broken) => return Some(broken),
            None => {}
        }
    }
    None
}

/// Whether a plan keeps the rules L1 to L8; else the first of them that it breaks, with the first piece in cutting order that
/// breaks it, and the two numbers that disagree:
///
/// - `L1`, at the plate or piece that is cut: the sum of its children, and its size in the direction of the cut;
/// - `L2`, at the item piece: its width, and its height;
/// - `L3`, at the waste or residual: its smaller side, of the residual its width, and the least waste;
/// - `L4`, at the 1-piece: its width, and the least width or, where that is kept, the greatest;
/// - `L5`, at the 2-piece: its height, and the least height;
/// - `L6`, at the 3-piece that is cut, or the residual: the level of its cut, 3 or 1, and 0;
/// - `L7`, at the item piece: the item's number, and the position of the first defect that it meets;
/// - `L8`, at the piece behind the cut: where the cut lies, and the position of the first defect that it runs through.
///
/// All lengths are in mm; positions count the instance's defects from 0. It takes no memory.
pub fn judge_cuts(instance: &Instance, map: &DefectMap, plan: &Plan) -> Result<(), Broken>
    requires same { map.now ≡ instance.now.defects }
    requires fits { Fits (tree plan.now) }
    ensures lawful { let b = instance.now in IsOk result
        ↔ All (KeepsCutRules b) (families_of b (tree plan.now)) }
    ensures first { let b = instance.now in IfErr result
        (IsBreach b (families_of b (tree plan.now))) }
{
    match first_of(Ground { instance, map }, plan, &CUT_RULES) {
        Some(broken) => Err(broken),
        None => Ok(()),
    }
}
