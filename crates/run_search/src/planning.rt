//! What `plan` and `gen` answer to an instance.

ghost use Rattle.std.specs.Prelude.{◌≡◌, ◌≤◌, ◌*◌, ◌++◌, ◌∷◌, [], ℕ, List, IfOk, IfSome, MatchResult, OnOk, false, length, map, option_map};
ghost use Rattle.cut_model.specs.Tree.{count, neighbour_count, tree};
ghost use Rattle.plan_box.specs.Frames.{frame_of};
ghost use Rattle.plan_box.specs.Ranges.{PlainBox};
ghost use Rattle.cert_log.specs.Good.{HasVersion, IsFloor};
ghost use Rattle.cert_log.specs.Lawful.{IsBest, IsLawful, loss_of as known_loss, numbered};
ghost use Rattle.cert_log.specs.Outcomes.{IsHead};
ghost use Rattle.cert_log.specs.Texts.{cert_text, head_of};
ghost use Rattle.box_workers.specs.Runs.{IsFirst, first_loss as first_loss_of};
ghost use Rattle.first_plan.specs.FirstPlans.{IsFirstPlan};
ghost use Rattle.plan_draft.specs.Drafts.{HasNoDraft};
ghost use Rattle.cert_resume.specs.Joins.{IsAtMost};
ghost use Rattle.run_search.specs.Plans.{HasLoss, Plans, PlansWithin, course, ending as ending_of, handled as handled_of, plan_stores, planned};
ghost use Rattle.run_frame.specs.Forms.{OnTold, answer_in, store_in};
ghost use Rattle.run_search.specs.inner.Searches.{AreWatched, Certifies, IsSaidByItsText, IsShortToo, IsToldFound, IsWatchedHistory, losses_in};
ghost use Rattle.run_checks.specs.Checks.{FitsToo, IsLawfulToo, loss_in};

use crate::lines::search_lines;
use crate::searching::{Searched, search_all_plans};
use crate::starting::{first_trace, start_of};
use crate::work::within_work;
use crate::workforce::Workforce;
use best_board::Entry;
use box_workers::Gate;
use cert_log::{Certificate, History, Node, assemble, write_cert};
use command_line::Product;
use cut_model::{Plan, plates_used};
use defect_map::Ground;
use glass_base::{Instance, Memory, Role, Run, append};
use plan_csv::write_plan;
use plan_trace::plan_of;
use run_checks::lawful_plan_in;
use run_frame::{Output, Reply, Status, Stop, reply_at};
use std::alloc::Global;
use std::sync::Wait;
use std::thread::Threads;

/// What a search found.
#[derive(Drop)]
pub(crate) struct FoundPlan {
    pub(crate) certificate: Certificate,
    pub(crate) plan: Option<Plan>,
    /// Where they are watched.
    pub(crate) improvements: Option<Run<Entry>>,
}

/// A search that begins with what is found before it, which is no worse than this lawful plan, if there is one.
fn search_from_plan<R: Threads + Wait + Sync, G: Gate + Sync>(
    alloc: Global,
    workforce: &Workforce<'_, R, G>,
    ground: Ground<'_>,
    before: &Option<Plan>,
) -> Result<Searched, Memory>
    requires fits { FitsToo before.now }
    requires lawful { IsLawfulToo ground.instance.now (option_map tree before.now) }
    ensures history { let options = workforce.now.options in
        IfOk result (λ s. IsWatchedHistory ground.entry.instance.now
        options.budget options.watch s.history s.improvements) }
    ensures unasked { IfOk result (λ s. workforce.now.options.fronts ≡ false
        → s.history.floor ≡ 0) }
    ensures no_worse { let b = ground.entry.instance.now in
        IfOk result (λ s. IsAtMost (known_loss s.history.best)
        (loss_in b (option_map tree before.now))) }
{
    let known = first_trace(alloc, ground.instance, before)?;
    let start = start_of(alloc, workforce, ground, known)?;
    search_all_plans(alloc, workforce, ground, start)
}

/// The certificate of a history.
pub(crate) fn certificate_of(
    alloc: Global,
    instance: &Instance,
    history: &History,
) -> Result<Certificate, Memory>
    requires { (budget : ℕ) × (to_beat : ℕ) × IsLawful instance.now
        (course instance.now to_beat budget history.now.floor) history.now }
    ensures certifies { IfOk result (λ c. (budget to_beat : ℕ)
        → IsLawful instance.now (course instance.now to_beat budget history.now.floor) history.now
        → Certifies instance.now budget to_beat history.now c) }
    ensures head { IfOk result (λ c. IsHead (head_of c)) }
{
    let mut certificates = assemble(alloc, instance, history)?;
    let Some(certificate) = certificates.pop() else {
        unreachable!();
    };
    Ok(certificate)
}

/// The plan of a best trace, if there is one.
pub(crate) fn best_plan(
    alloc: Global,
    instance: &Instance,
    history: &History,
) -> Result<Option<Plan>, Memory>
    requires { IsBest instance.now history.now.best history.now.plan }
    ensures loss { IfOk result (λ plan. HasLoss instance.now (known_loss history.now.best)
        (option_map tree plan)) }
    ensures said { IfOk result (λ plan. IsSaidByItsText instance.now (option_map tree plan)) }
    ensures short { IfOk result (λ plan. IsShortToo instance.now (option_map tree plan)) }
    ensures fits { IfOk result FitsToo }
    ensures few { IfOk result (λ plan. IfSome (option_map tree plan) (λ t. count t
        ≤ 12 * length instance.now.items)) }
{
    // Read for its range and for its rules.
    let _best = history.best;
    let _items = instance.items();
    match &history.plan {
        None => Ok(None),
        Some(trace) => {
            let plan = plan_of(alloc, instance, trace)?;
            Ok(Some(plan))
        }
    }
}

/// What a search finds that may close or split so many boxes, where this lawful plan is known before, if there is one.
fn find_plan<R: Threads + Wait + Sync, G: Gate + Sync>(
    alloc: Global,
    workforce: &Workforce<'_, R, G>,
    ground: Ground<'_>,
    before: &Option<Plan>,
) -> Result<FoundPlan, Memory>
    requires fits { FitsToo before.now }
    requires lawful { IsLawfulToo ground.instance.now (option_map tree before.now) }
    ensures found { let options = workforce.now.options in
        IfOk result (λ found. IsToldFound ground.entry.instance.now options.budget options.watch
        found.certificate (option_map tree found.plan) (losses_in found.improvements)) }
    ensures unasked { IfOk result (λ found. workforce.now.options.fronts ≡ false
        → found.certificate.floor ≡ 0) }
    ensures no_worse { let b = ground.entry.instance.now in
        IfOk result (λ found. IsAtMost found.certificate.loss
        (loss_in b (option_map tree before.now))) }
    ensures fits { IfOk result (λ found. FitsToo found.plan) }
{
    // Read for its rules.
    let _items = ground.instance.items();
    let searched = search_from_plan(alloc, workforce, ground, before)?;
    let certificate = certificate_of(alloc, ground.instance, &searched.history)?;
    let plan = best_plan(alloc, ground.instance, &searched.history)?;
    let Searched {
        history: _,
        improvements,
    } = searched;
    Ok(FoundPlan {
        certificate,
        plan,
        improvements,
    })
}

/// How many boxes a certificate tells of that were closed or split.
pub(crate) fn handled(certificate: &Certificate) -> usize
    ensures { result ≡ handled_of certificate.now }
{
    certificate
        .nodes
        .as_slice()
        .iter()
        .filter(|node| !matches!(node, Node::Left))
        .count()
}

/// How a search ended.
pub(crate) fn ending(certificate: &Certificate) -> Status
    ensures { result ≡ ending_of certificate.now }
{
    if certificate.left > 0 {
        Status::Stopped
    } else if certificate.loss.is_some() {
        Status::Optimal
    } else {
        Status::Infeasible
    }
}

/// Appends the plan to what is to be stored, if there is one.
fn put_plan(
    alloc: Global,
    instance: &Instance,
    plan: &Option<Plan>,
    outputs: &mut Run<Output>,
) -> Result<(), Memory>
    requires fits { FitsToo plan.now }
    requires first { outputs.old.items ≡ [] }
    ensures { OnOk result ((name : Product → List ℕ)
        → map (store_in name) outputs.new.items
        ≡ plan_stores instance.now (name Product.Plan) (option_map tree plan.now)) }
{
    match plan {
        None => Ok(()),
        Some(plan) => {
            let bytes = write_plan(alloc, instance, plan)?;
            append(
                outputs,
                Output {
                    product: Product::Plan,
                    bytes,
                },
            )
        }
    }
}

/// The plan, if there is one, and then the text of the certificate, as what is to be stored.
fn outputs_of(
    alloc: Global,
    instance: &Instance,
    plan: &Option<Plan>,
    text: Run<u8>,
) -> Result<Run<Output>, Memory>
    requires { FitsToo plan.now }
    ensures { IfOk result (λ outputs. (name : Product → List ℕ)
        → map (store_in name) outputs.items
        ≡ plan_stores instance.now (name Product.Plan) (option_map tree plan.now)
        ++ record { name = name Product.Certificate; bytes = text.items } ∷ []) }
{
    let mut outputs = Run::new(alloc);
    put_plan(alloc, instance, plan, &mut outputs)?;
    append(
        &mut outputs,
        Output {
            product: Product::Certificate,
            bytes: text,
        },
    )?;
    Ok(outputs)
}

/// How many plates a plan uses, if there is one.
fn plates_of(plan: &Option<Plan>) -> Option<u64>
    ensures { result ≡ option_map neighbour_count (option_map tree plan.now) }
{
    match plan {
        None => None,
        Some(plan) => Some(plates_used(plan)),
    }
}

/// The reply that stores and tells what a search found, whose certificate has this text.
pub(crate) fn reply_with_text(
    alloc: Global,
    instance: &Instance,
    found: &FoundPlan,
    text: Run<u8>,
) -> Result<Reply, Memory>
    requires text { text.items ≡ cert_text found.now.certificate }
    requires fits { FitsToo found.now.plan }
    ensures { IfOk result (λ r. (name : Product → List ℕ)
        → answer_in name r ≡ planned instance.now (name Product.Plan)
        (name Product.Certificate) found.now.certificate (option_map tree found.now.plan)
        (losses_in found.now.improvements)) }
{
    let certificate = &found.certificate;
    let status = ending(certificate);
    let lines = search_lines(
        alloc,
        status.word(),
        certificate,
        plates_of(&found.plan),
        handled(certificate) as u64,
        &found.improvements,
    )?;
    Ok(Reply {
        status,
        outputs: outputs_of(alloc, instance, &found.plan, text)?,
        lines,
    })
}

/// The reply that stores and tells what a search found.
fn reply_with_found(alloc: Global, instance: &Instance, found: &FoundPlan) -> Result<Reply, Memory>
    requires version { HasVersion found.now.certificate }
    requires fits { FitsToo found.now.plan }
    ensures { IfOk result (λ r. (name : Product → List ℕ)
        → answer_in name r ≡ planned instance.now (name Product.Plan)
        (name Product.Certificate) found.now.certificate (option_map tree found.now.plan)
        (losses_in found.now.improvements)) }
{
    let text = write_cert(alloc, &found.certificate)?;
    reply_with_text(alloc, instance, found, text)
}

/// The reply to a lawful plan, or to none: the best plan that a search finds, which loses no more, and its certificate.
fn plan_from<R: Threads + Wait + Sync, G: Gate + Sync>(
    alloc: Global,
    workforce: &Workforce<'_, R, G>,
    ground: Ground<'_>,
    before: &Option<Plan>,
) -> Result<Reply, Memory>
    requires fits { FitsToo before.now }
    requires lawful { IsLawfulToo ground.instance.now (option_map tree before.now) }
    ensures { let b = ground.entry.instance.now in let options = workforce.now.options in
        IfOk result (λ r. (name : Product → List ℕ)
        → Plans b options.budget options.watch options.fronts (option_map tree before.now)
        (name Product.Plan) (name Product.Certificate) (answer_in name r)) }
{
    let found = find_plan(alloc, workforce, ground, before)?;
    reply_with_found(alloc, ground.instance, &found)
}

/// The reply to the text of a plan that is known before, if there is one; or what is told where the search would be too
/// much work, or where the text says no lawful plan.
fn plan_within<R: Threads + Wait + Sync, G: Gate + Sync>(
    alloc: Global,
    workforce: &Workforce<'_, R, G>,
    ground: Ground<'_>,
    text: Option<&[u8]>,
) -> Result<Reply, Stop>
    ensures { let b = ground.entry.instance.now in let options = workforce.now.options in
        let said = option_map (λ bytes. bytes.now) text.entry in
        MatchResult result (λ r. (name : Product → List ℕ)
        → PlansWithin b options.budget options.watch options.fronts said
        (name Product.Plan) (name Product.Certificate) (answer_in name r))
        (OnTold (λ answer. (out cert : List ℕ)
        → PlansWithin b options.budget options.watch options.fronts said out cert answer)) }
{
    let items = ground.instance.items().len() as u64;
    let boxes = u64::from(workforce.options.budget);
    within_work(alloc, items, boxes, Role::Batch, 9)?;
    let before = lawful_plan_in(alloc, ground, text)?;
    Ok(plan_from(alloc, workforce, ground, &before)?)
}

/// The reply to an instance: the best plan that a search finds and its certificate, with its improvements where they are
/// watched; or a refusal where the number of items times the budget is above 160,000,000. Where there is the text of a
/// plan, it is judged, and what is stored loses no more. Where fronts are asked, the search begins with what they show:
/// with the best of the plans that are known, and with a loss that no lawful plan is below; where there is an effort or a
/// time, with the best plan that wide beams find with it.
pub fn plan_instance<R: Threads + Wait + Sync, G: Gate + Sync>(
    alloc: Global,
    workforce: &Workforce<'_, R, G>,
    ground: Ground<'_>,
    text: Option<&[u8]>,
) -> Result<Reply, Memory>
    ensures { let options = workforce.now.options in IfOk result (λ r. (name : Product → List ℕ)
        → PlansWithin ground.entry.instance.now options.budget options.watch options.fronts
        (option_map (λ bytes. bytes.now) text.entry) (name Product.Plan)
        (name Product.Certificate) (answer_in name r)) }
{
    match plan_within(alloc, workforce, ground, text) {
        Ok(reply) => Ok(reply),
        Err(stop) => reply_at(alloc, stop),
    }
}
