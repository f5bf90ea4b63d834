//! What `resume` answers to an instance and the texts of a plan and of a certificate.

ghost use Rattle.std.specs.Prelude.{◌≡◌, ◌≤◌, ℕ, List, [], All, IfOk, IfSome, IsSome, MatchResult, None, false, if◌then◌else◌, is_some, nat_le, option_map, length};
ghost use Rattle.glass_base.specs.declared.role.Role.TheVariants as role;
ghost use Rattle.cut_model.specs.Tree.{tree};
ghost use Rattle.plan_box.specs.Frames.{frame_of};
ghost use Rattle.plan_box.specs.Ranges.{PlainBox};
ghost use Rattle.cert_log.specs.Good.{HasVersion, IsFloor, IsGood};
ghost use Rattle.cert_log.specs.Lawful.{numbered};
ghost use Rattle.cert_log.specs.Texts.{cert_text};
ghost use Rattle.cert_resume.specs.Joins.{IsAtMost};
ghost use Rattle.box_workers.specs.Runs.{IsFirst, first_loss as first_loss_of};
ghost use Rattle.run_checks.specs.Checks.{FitsToo, IsLawfulToo, loss_in, root_ranges};
ghost use Rattle.run_search.specs.Plans.{planned};
ghost use Rattle.run_search.specs.Resumptions.{Resumes, ResumesEachBox, too_long_to_read};
ghost use Rattle.run_search.specs.inner.Searches.{IsHistoryOf};
ghost use Rattle.run_frame.specs.Texts.{limit_of};
ghost use Rattle.run_frame.specs.Forms.{OnTold, answer_in};

use crate::planning::{FoundPlan, best_plan, reply_with_text};
use crate::searching::history_of_boxes;
use crate::starting::{first_trace, start_behind};
use crate::work::within_work;
use crate::workforce::Workforce;
use box_workers::{Gate, first_loss};
use cert_check::reasoned;
use cert_log::{History, assemble, best_loss, write_cert};
use cert_resume::{join, left_boxes};
use command_line::Product;
use cut_model::Plan;
use defect_map::Ground;
use first_plan::Start;
use front_bound::front_search::FrontSearch;
use glass_base::limits::MOST_CERT_BYTES;
use glass_base::{Instance, Memory, Role, Run};
use plan_box::PlanBox;
use run_checks::{Checked, accepted_texts};
use run_frame::{Reply, Stop, bad_input, limit, reply_at, reply_with};
use std::alloc::Global;
use std::sync::Wait;
use std::thread::Threads;

/// With what a search begins that goes on from a lawful plan, or from none: with that plan, and where work is done for a
/// better one or fronts are asked, with the best of it and of what is found, and the floor that fronts show.
fn begun_behind<R: Threads + Wait + Sync, G: Gate + Sync>(
    alloc: Global,
    workforce: &Workforce<'_, R, G>,
    ground: Ground<'_>,
    plan: &Option<Plan>,
) -> Result<Start, Memory>
    requires fits { FitsToo plan.now }
    requires lawful { IsLawfulToo ground.instance.now (option_map tree plan.now) }
    ensures first { IfOk result (λ start. IsFirst ground.entry.instance.now start.first) }
    ensures floor { IfOk result (λ start. IsFloor ground.entry.instance.now start.floor) }
    ensures unasked { IfOk result (λ start. workforce.now.options.fronts ≡ false
        → start.floor ≡ 0) }
    ensures no_worse { let b = ground.entry.instance.now in
        IfOk result (λ start. IsAtMost (Some (first_loss_of b start.first))
        (loss_in b (option_map tree plan.now))) }
    ensures known { IfOk result (λ start. IfSome plan.now (λ _. IsSome start.first)) }
{
    let known = first_trace(alloc, ground.instance, plan)?;
    start_behind(alloc, workforce, ground, known)
}

/// The history of a search in which nothing was open.
fn history_of_none(alloc: Global, instance: &Instance, start: Start) -> History
    requires first { IsFirst instance.now start.first }
    requires floor { IsFloor instance.now start.floor }
    ensures { (budget : ℕ) → IsHistoryOf instance.now [] start.first budget start.floor result }
{
    let Start { first, floor } = start;
    let best = first_loss(instance, &first);
    History {
        starts: 0,
        log: Run::new(alloc),
        left: Run::new(alloc),
        plan: first,
        best,
        floor,
    }
}

/// The history of a search of these boxes, of which there may be none.
fn history_of_open<R: Threads + Wait + Sync, G: Gate + Sync>(
    alloc: Global,
    workforce: &Workforce<'_, R, G>,
    ground: Ground<'_>,
    boxes: Run<PlanBox>,
    start: Start,
) -> Result<History, Memory>
    requires few { length boxes.items ≤ MOST_CERT_BYTES }
    requires ids { numbered 0 boxes.items }
    requires frames { All (λ (x : PlainBox). x.frame ≡ frame_of ground.instance.now) boxes.items }
    requires first { IsFirst ground.instance.now start.first }
    requires floor { IsFloor ground.instance.now start.floor }
    ensures { IfOk result (IsHistoryOf ground.entry.instance.now boxes.items
        start.first workforce.now.options.budget start.floor) }
{
    if boxes.is_empty() {
        return Ok(history_of_none(alloc, ground.instance, start));
    }
    history_of_boxes(alloc, workforce, ground, boxes, start)
}

/// What is found by a search that goes on in the open boxes of a right certificate.
fn go_on<R: Threads + Wait + Sync, G: Gate + Sync>(
    alloc: Global,
    workforce: &Workforce<'_, R, G>,
    ground: Ground<'_>,
    checked: &Checked,
) -> Result<FoundPlan, Memory>
    requires fits { FitsToo checked.now.plan }
    requires lawful { IsLawfulToo ground.instance.now (option_map tree checked.now.plan) }
    requires good { IsGood ground.instance.now (root_ranges ground.instance.now)
        (loss_in ground.instance.now (option_map tree checked.now.plan)) checked.now.certificate }
    requires version { HasVersion checked.now.certificate }
    requires few { checked.now.certificate.left ≤ MOST_CERT_BYTES }
    ensures resumed { let options = workforce.now.options in
        IfOk result (λ found. ResumesEachBox ground.entry.instance.now
        options.budget options.fronts (option_map tree checked.now.plan)
        checked.now.certificate found.certificate (option_map tree found.plan)) }
    ensures version { IfOk result (λ found. HasVersion found.certificate) }
    ensures fits { IfOk result (λ found. FitsToo found.plan) }
    ensures unwatched { IfOk result (λ found. found.improvements ≡ None) }
{
    // Read for its rules.
    let _items = ground.instance.items();
    let named = reasoned(alloc, ground.instance, ground.map, &checked.certificate)?;
    let boxes = left_boxes(alloc, ground.instance, &named)?;
    let begun = begun_behind(alloc, workforce, ground, &checked.plan)?;
    let floor = named.floor.max(begun.floor);
    let start = Start {
        first: begun.first,
        floor,
    };
    let history = history_of_open(alloc, workforce, ground, boxes, start)?;
    let parts = assemble(alloc, ground.instance, &history)?;
    let _left = history.left.len();
    let certificate = join(alloc, &named, parts, floor, best_loss(&history))?;
    let plan = best_plan(alloc, ground.instance, &history)?;
    Ok(FoundPlan {
        certificate,
        plan,
        improvements: None,
    })
}

/// The reply that stores and tells what a search found, or a refusal where the text of the certificate is longer than one that is read.
fn reply_if_readable(alloc: Global, instance: &Instance, found: &FoundPlan) -> Result<Reply, Memory>
    requires version { HasVersion found.now.certificate }
    requires fits { FitsToo found.now.plan }
    requires unwatched { found.now.improvements ≡ None }
    ensures { IfOk result (λ r. (name : Product → List ℕ)
        → answer_in name r ≡ (if nat_le (length (cert_text found.now.certificate))
        (limit_of role.Cert) then planned instance.now (name Product.Plan)
        (name Product.Certificate) found.now.certificate
        (option_map tree found.now.plan) None else too_long_to_read found.now.certificate)) }
{
    let text = write_cert(alloc, &found.certificate)?;
    let bytes = text.len() as u64;
    let most = limit(Role::Cert);
    if bytes > most {
        let notice = bad_input(alloc, Role::Cert, 17, bytes, most)?;
        return Ok(reply_with(alloc, notice));
    }
    reply_with_text(alloc, instance, found, text)
}

/// The reply to the texts of a plan, or none, and of a certificate that is accepted with it: what a search finds in the open
/// boxes, or what comes could not be read again; or what is told where they are refused, or where the number of items
/// times the sum of the budget and the number of open boxes is above 160,000,000.
fn resume_within<R: Threads + Wait + Sync, G: Gate + Sync>(
    alloc: Global,
    workforce: &Workforce<'_, R, G>,
    ground: Ground<'_>,
    plan_text: Option<&[u8]>,
    cert_text: &[u8],
) -> Result<Reply, Stop>
    ensures { let b = ground.entry.instance.now in let options = workforce.now.options in
        let said = option_map (λ bytes. bytes.now) plan_text.entry in
        MatchResult result (λ r. (name : Product → List ℕ)
        → Resumes b said cert_text.now options.budget options.fronts
        (name Product.Plan) (name Product.Certificate) (answer_in name r))
        (OnTold (λ answer. (out new : List ℕ)
        → Resumes b said cert_text.now options.budget options.fronts out new answer)) }
{
    let search = FrontSearch {
        labels: workforce.options.labels,
        rt: workforce.rt,
        threads: workforce.options.workers,
        listener: workforce.gate,
    };
    let checked = accepted_texts(alloc, ground, plan_text, cert_text, &search)?;
    // Read for its length.
    let _nodes = checked.certificate.nodes.len();
    let items = ground.instance.items().len() as u64;
    let boxes = u64::from(workforce.options.budget) + checked.certificate.left;
    within_work(alloc, items, boxes, Role::Cert, 15)?;
    let found = go_on(alloc, workforce, ground, &checked)?;
    Ok(reply_if_readable(alloc, ground.instance, &found)?)
}

/// The reply to the texts of a plan, or none, and of a certificate: what a search finds that goes on in the boxes that
/// the certificate leaves open, or a refusal as by `verify`, or of what would be too much work. Its floor is shown by
/// searches over fronts with as many labels as are asked. The search begins with the plan, and where there is an effort or
/// a time or fronts are asked, with the best of it and of what these find; the floor that fronts show is that of what is
/// stored, where it is greater.
pub fn resume_texts<R: Threads + Wait + Sync, G: Gate + Sync>(
    alloc: Global,
    workforce: &Workforce<'_, R, G>,
    ground: Ground<'_>,
    plan_text: Option<&[u8]>,
    cert_text: &[u8],
) -> Result<Reply, Memory>
    ensures { let options = workforce.now.options in IfOk result (λ r. (name : Product → List ℕ)
        → Resumes ground.entry.instance.now (option_map
        (λ bytes. bytes.now) plan_text.entry) cert_text.now options.budget
        options.fronts (name Product.Plan) (name Product.Certificate) (answer_in name r)) }
{
    match resume_within(alloc, workforce, ground, plan_text, cert_text) {
        Ok(reply) => Ok(reply),
        Err(stop) => reply_at(alloc, stop),
    }
}
