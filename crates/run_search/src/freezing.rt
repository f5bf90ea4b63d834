//! What `freeze` answers to an instance and the text of a plan.

ghost use Rattle.std.specs.Prelude.{◌≡◌, ◌+◌, ◌*◌, ◌<◌, ◌≤◌, ◌^◌, [], ◌∷◌, ℕ, List, length, IfOk, IfSome, MatchResult, map, option_map};
ghost use Rattle.cut_model.specs.Fits.{Fits};
ghost use Rattle.cut_model.specs.Lawful.{IsLawful};
ghost use Rattle.cut_model.specs.Tree.{count, neighbour_count, tree};
ghost use Rattle.cert_log.specs.Good.{HasVersion};
ghost use Rattle.cert_log.specs.Outcomes.{IsHead};
ghost use Rattle.cert_log.specs.Texts.{cert_text, head_of};
ghost use Rattle.plan_csv.specs.Solutions.{solution_text};
ghost use Rattle.run_search.specs.Freezes.{Freezes, FreezesWithin, IsFoundFrom, frozen_if_short, frozen_planned};
ghost use Rattle.run_frame.specs.Forms.{OnTold, answer_in, store_in};
ghost use Rattle.run_search.specs.inner.Searches.{IsFoundBehind, IsHistoryFrom};

use crate::lines::six_lines;
use crate::planning::{best_plan, certificate_of, ending, handled};
use crate::searching::history_of_all_plans;
use crate::starting::start_behind;
use crate::work::within_work;
use crate::workforce::Workforce;
use box_workers::Gate;
use cert_log::{Certificate, History, write_cert};
use command_line::Product;
use cut_model::{Plan, plates_used};
use defect_map::Ground;
use glass_base::{Instance, Memory, Role, Run, append};
use plan_csv::write_plan;
use plan_freeze::{frozen_loss, glue, rest};
use plan_trace::trace_of;
use run_checks::{leaves_some, raised, too_long_to_store};
use run_frame::{Output, Reply, Stop, limit, reply_at, reply_with};
use run_plans::{Grounded, lawful, read_plan_of};
use std::alloc::Global;
use std::sync::Wait;
use std::thread::Threads;

/// What a search found that goes on from a plan.
#[derive(Drop)]
struct FoundFrom {
    certificate: Certificate,
    best: Plan,
}

/// The history of a search that goes on from a lawful plan.
fn history_behind<R: Threads + Wait + Sync, G: Gate + Sync>(
    alloc: Global,
    workforce: &Workforce<'_, R, G>,
    ground: Ground<'_>,
    plan: &Plan,
) -> Result<History, Memory>
    requires fits { Fits (tree plan.now) }
    requires lawful { IsLawful ground.instance.now (tree plan.now) }
    ensures { let options = workforce.now.options in IfOk result (λ h. IsHistoryFrom
        ground.entry.instance.now (tree plan.now) options.budget options.fronts h) }
{
    let known = trace_of(alloc, ground.instance, plan)?;
    let start = start_behind(alloc, workforce, ground, Some(known))?;
    history_of_all_plans(alloc, workforce, ground, start)
}

/// What a search finds that goes on from a lawful plan.
fn find_from<R: Threads + Wait + Sync, G: Gate + Sync>(
    alloc: Global,
    workforce: &Workforce<'_, R, G>,
    ground: Ground<'_>,
    plan: &Plan,
) -> Result<FoundFrom, Memory>
    requires fits { Fits (tree plan.now) }
    requires lawful { IsLawful ground.instance.now (tree plan.now) }
    ensures found { let options = workforce.now.options in IfOk result (λ found. IsFoundFrom
        ground.entry.instance.now (tree plan.now) options.budget options.fronts
        found.certificate (tree found.best)) }
    ensures fits { IfOk result (λ found. Fits (tree found.best)) }
    ensures few { IfOk result (λ found. count (tree found.best)
        ≤ 12 * length ground.entry.instance.now.items) }
    ensures head { IfOk result (λ found. IsHead (head_of found.certificate)) }
{
    // Read for its rules.
    let _items = ground.instance.items();
    let history = history_behind(alloc, workforce, ground, plan)?;
    let certificate = certificate_of(alloc, ground.instance, &history)?;
    let plan = best_plan(alloc, ground.instance, &history)?;
    match plan {
        Some(best) => Ok(FoundFrom { certificate, best }),
        None => unreachable!(),
    }
}

/// The text of the whole plan, and then the certificate, as what is to be stored.
fn outputs_of(
    alloc: Global,
    certificate: &Certificate,
    text: Run<u8>,
) -> Result<Run<Output>, Memory>
    requires version { HasVersion certificate.now }
    ensures { IfOk result (λ outputs. (name : Product → List ℕ)
        → map (store_in name) outputs.items
        ≡ record { name = name Product.Plan; bytes = text.items }
        ∷ record { name = name Product.Certificate; bytes = cert_text certificate.now } ∷ []) }
{
    let mut outputs = Run::new(alloc);
    append(
        &mut outputs,
        Output {
            product: Product::Plan,
            bytes: text,
        },
    )?;
    let bytes = write_cert(alloc, certificate)?;
    append(
        &mut outputs,
        Output {
            product: Product::Certificate,
            bytes,
        },
    )?;
    Ok(outputs)
}

/// The reply that stores the whole plan, which has this text, and the certificate of what was planned anew, and tells of it with this loss added.
fn reply_with_text(
    alloc: Global,
    _instance: &Instance,
    certificate: &Certificate,
    whole: &Plan,
    text: Run<u8>,
    more: u64,
) -> Result<Reply, Memory>
    requires version { HasVersion certificate.now }
    requires text { text.items ≡ solution_text _instance.now (tree whole.now) }
    requires loss { IfSome certificate.now.loss (λ n. more + n < 2 ^ 64) }
    requires bound { IfSome certificate.now.bound (λ n. more + n < 2 ^ 64) }
    ensures { IfOk result (λ r. (name : Product → List ℕ)
        → answer_in name r ≡ frozen_planned _instance.now (name Product.Plan)
        (name Product.Certificate) more certificate.now (tree whole.now)) }
{
    let status = ending(certificate);
    let lines = six_lines(
        alloc,
        status.word(),
        raised(certificate.loss, more),
        raised(certificate.bound, more),
        Some(plates_used(whole)),
        handled(certificate) as u64,
        certificate.left,
    )?;
    Ok(Reply {
        status,
        outputs: outputs_of(alloc, certificate, text)?,
        lines,
    })
}

/// The reply that stores the whole plan and the certificate of what was planned anew, and tells of it with this loss added, or a refusal where the
/// text of the whole plan is longer than one that is read.
fn reply_with_whole(
    alloc: Global,
    instance: &Instance,
    certificate: &Certificate,
    whole: &Plan,
    more: u64,
) -> Result<Reply, Memory>
    requires version { HasVersion certificate.now }
    requires fits { Fits (tree whole.now) }
    requires loss { IfSome certificate.now.loss (λ n. more + n < 2 ^ 64) }
    requires bound { IfSome certificate.now.bound (λ n. more + n < 2 ^ 64) }
    ensures { IfOk result (λ r. (name : Product → List ℕ)
        → answer_in name r ≡ frozen_if_short instance.now (name Product.Plan)
        (name Product.Certificate) more certificate.now (tree whole.now)) }
{
    let text = write_plan(alloc, instance, whole)?;
    if text.len() as u64 > limit(Role::Plan) {
        let notice = too_long_to_store(alloc, Role::Plan, &text)?;
        return Ok(reply_with(alloc, notice));
    }
    reply_with_text(alloc, instance, certificate, whole, text, more)
}

/// What a search finds that plans anew what stands behind the first `k` plates.
fn find_behind<R: Threads + Wait + Sync, G: Gate + Sync>(
    alloc: Global,
    workforce: &Workforce<'_, R, G>,
    instance: &Instance,
    plan: &Plan,
    k: u32,
) -> Result<FoundFrom, Memory>
    requires fits { Fits (tree plan.now) }
    requires lawful { IsLawful instance.now (tree plan.now) }
    requires fewer { k < neighbour_count (tree plan.now) }
    ensures found { let options = workforce.now.options in IfOk result (λ found. IsFoundBehind
        instance.now (tree plan.now) k options.budget options.fronts
        found.certificate (tree found.best)) }
    ensures fits { IfOk result (λ found. Fits (tree found.best)) }
{
    let (left, tail) = rest(alloc, instance, plan, k)?;
    let behind = Grounded::new(alloc, left)?;
    find_from(alloc, workforce, behind.ground(), &tail)
}

/// The reply to a lawful plan with more than `k` plates: what a search finds behind these.
fn plan_behind<R: Threads + Wait + Sync, G: Gate + Sync>(
    alloc: Global,
    workforce: &Workforce<'_, R, G>,
    instance: &Instance,
    plan: &Plan,
    k: u32,
) -> Result<Reply, Memory>
    requires fits { Fits (tree plan.now) }
    requires rows { count (tree plan.now) ≤ 1000000000 }
    requires lawful { IsLawful instance.now (tree plan.now) }
    requires fewer { k < neighbour_count (tree plan.now) }
    ensures { let options = workforce.now.options in IfOk result (λ r. (name : Product → List ℕ)
        → Freezes instance.now k options.budget options.fronts (tree plan.now)
        (name Product.Plan) (name Product.Certificate) (answer_in name r)) }
{
    // Read for its rules.
    let _items = instance.items();
    let found = find_behind(alloc, workforce, instance, plan, k)?;
    let whole = glue(alloc, plan, k, &found.best)?;
    let more = frozen_loss(instance, plan, k);
    reply_with_whole(alloc, instance, &found.certificate, &whole, more)
}

/// The reply to the plan that a text says, where it is lawful and has more than `k` plates: what a search finds behind
/// these; or what is told where the search would be too much work, and then of the first that fails: the text, the plan,
/// its number of plates.
fn freeze_within<R: Threads + Wait + Sync, G: Gate + Sync>(
    alloc: Global,
    workforce: &Workforce<'_, R, G>,
    ground: Ground<'_>,
    bytes: &[u8],
    k: u32,
) -> Result<Reply, Stop>
    ensures { let b = ground.entry.instance.now in let options = workforce.now.options in
        MatchResult result (λ r. (name : Product → List ℕ)
        → FreezesWithin b k options.budget options.fronts bytes.now
        (name Product.Plan) (name Product.Certificate) (answer_in name r))
        (OnTold (λ answer. (out cert : List ℕ)
        → FreezesWithin b k options.budget options.fronts bytes.now out cert answer)) }
{
    let items = ground.instance.items().len() as u64;
    let boxes = u64::from(workforce.options.budget);
    within_work(alloc, items, boxes, Role::Batch, 9)?;
    let plan = read_plan_of(alloc, ground.instance, bytes)?;
    lawful(alloc, ground, &plan)?;
    leaves_some(alloc, &plan, k)?;
    Ok(plan_behind(alloc, workforce, ground.instance, &plan, k)?)
}

/// The reply to the text of a plan: its first `k` plates stay as they are, and the best plan that a search finds stands
/// behind them; or a refusal, first where the number of items times the budget is above 160,000,000, last where the whole
/// plan could not be read again. The search begins with what stands there now, and where there is an effort or a time or
/// fronts are asked, with the best of that and of what these find.
pub fn freeze_text<R: Threads + Wait + Sync, G: Gate + Sync>(
    alloc: Global,
    workforce: &Workforce<'_, R, G>,
    ground: Ground<'_>,
    bytes: &[u8],
    k: u32,
) -> Result<Reply, Memory>
    ensures { let options = workforce.now.options in IfOk result (λ r. (name : Product → List ℕ)
        → FreezesWithin ground.entry.instance.now k options.budget options.fronts bytes.now
        (name Product.Plan) (name Product.Certificate) (answer_in name r)) }
{
    match freeze_within(alloc, workforce, ground, bytes, k) {
        Ok(reply) => Ok(reply),
        Err(stop) => reply_at(alloc, stop),
    }
}
