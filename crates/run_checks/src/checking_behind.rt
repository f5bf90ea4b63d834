//! What `verify` answers where the first plates of the plan are cut already.

ghost use Rattle.std.specs.Prelude.{◌≡◌, ◌⊎◌, ◌+◌, ◌<◌, ◌≤◌, ◌^◌, ℕ, List, [], IfOk, IfSome, MatchResult, option_map, unwrap_or};
ghost use Rattle.cut_model.specs.Fits.{Fits};
ghost use Rattle.cut_model.specs.Lawful.{IsLawful};
ghost use Rattle.cut_model.specs.Tree.{neighbour_count, tree};
ghost use Rattle.cert_log.specs.Good.{HasVersion};
ghost use Rattle.cert_log.specs.Trees.{IsTree};
ghost use Rattle.run_checks.specs.Checks.{accepted as accepted_of};
ghost use Rattle.run_checks.specs.FrozenChecks.{LeavesNone, NotAcceptedBehind, VerifiesBehind, VerifiesFrom, raised as raised_of};
ghost use Rattle.run_checks.specs.inner.Checked.{IsAcceptedBehindFor, IsRightBehind, IsWrongBehind};
ghost use Rattle.run_frame.specs.Forms.{OnTold, answer_in, notice_in};

use crate::checking::{check_cert_in, read_cert_in, verify_texts};
use crate::lines::line_with_bound;
use cert_log::Certificate;
use command_line::Product;
use cut_model::{Plan, plates_used};
use defect_map::Ground;
use front_bound::front_search::FrontSearch;
use glass_base::{Listener, Memory, Role};
use loss_area::loss;
use plan_freeze::{frozen_loss, rest};
use run_frame::{Notice, Reply, Status, Stop, numbered, reply_at, reply_with, stop_at};
use run_plans::{Grounded, lawful, read_plan_of};
use std::alloc::Global;
use std::thread::Threads;

/// What is told of a plan that has no more than `k` plates.
fn stop_at_last(alloc: Global, plan: &Plan, k: u32) -> Stop
    requires { neighbour_count (tree plan.now) ≤ k }
    ensures { OnTold (LeavesNone (tree plan.now) k) result }
{
    stop_at(
        alloc,
        numbered(Role::Plan, 16, u64::from(k), plates_used(plan)),
    )
}

/// Goes on where a plan has more than `k` plates.
pub fn leaves_some(alloc: Global, plan: &Plan, k: u32) -> Result<(), Stop>
    ensures { MatchResult result (λ _. k < neighbour_count (tree plan.now))
        (OnTold (LeavesNone (tree plan.now) k)) }
{
    if plates_used(plan) <= u64::from(k) {
        return Err(stop_at_last(alloc, plan, k));
    }
    Ok(())
}

/// Goes on where a certificate is right for the instance that is left behind the first `k` plates, and for what the plan loses there.
fn check_behind<R: Threads + Sync, L: Listener>(
    alloc: Global,
    ground: Ground<'_>,
    plan: &Plan,
    k: u32,
    certificate: &Certificate,
    search: &FrontSearch<'_, R, L>,
) -> Result<(), Stop>
    requires fits { Fits (tree plan.now) }
    requires lawful { IsLawful ground.instance.now (tree plan.now) }
    requires fewer { k < neighbour_count (tree plan.now) }
    requires tree { IsTree certificate.now.nodes.items }
    requires version { HasVersion certificate.now }
    ensures { let b = ground.entry.instance.now in
        MatchResult result (λ _. IsRightBehind b (tree plan.now) k certificate.now)
        (OnTold (IsWrongBehind b (tree plan.now) k certificate.now)) }
{
    let (left, tail) = rest(alloc, ground.instance, plan, k)?;
    let lost = loss(&left, &tail);
    let behind = Grounded::new(alloc, left)?;
    check_cert_in(alloc, behind.ground(), Some(lost), certificate, search)
}

/// A lawful plan, and a certificate that is right behind its first plates.
#[derive(Drop)]
struct CheckedBehind {
    plan: Plan,
    certificate: Certificate,
}

/// The certificate that a text says, where it is right behind the first `k` plates of the plan that another one says, and this is lawful and has
/// more of them, with this plan; or what is told of the first that fails: the text of the plan, that of the certificate, the plan, its number of
/// plates, the certificate.
fn accepted_behind<R: Threads + Sync, L: Listener>(
    alloc: Global,
    ground: Ground<'_>,
    plan_text: &[u8],
    cert_text: &[u8],
    k: u32,
    search: &FrontSearch<'_, R, L>,
) -> Result<CheckedBehind, Stop>
    ensures accepted { let b = ground.entry.instance.now in
        MatchResult result (λ a. IsAcceptedBehindFor b k plan_text.now cert_text.now
        (tree a.plan) a.certificate) (OnTold (NotAcceptedBehind b k plan_text.now cert_text.now)) }
    ensures fits { IfOk result (λ a. Fits (tree a.plan)) }
{
    let plan = read_plan_of(alloc, ground.instance, plan_text)?;
    let certificate = read_cert_in(alloc, cert_text)?;
    lawful(alloc, ground, &plan)?;
    leaves_some(alloc, &plan, k)?;
    check_behind(alloc, ground, &plan, k, &certificate, search)?;
    Ok(CheckedBehind { plan, certificate })
}

/// A number with another one added, if there is one.
pub fn raised(number: Option<u64>, more: u64) -> Option<u64>
    requires { IfSome number (λ n. more + n < 2 ^ 64) }
    ensures { result ≡ option_map (λ n. more + n) number }
{
    match number {
        None => None,
        Some(number) => Some(more + number),
    }
}

/// The notice of a certificate that is right behind plates that lose so much.
fn accepted_with(alloc: Global, certificate: &Certificate, more: u64) -> Result<Notice, Memory>
    requires { IfSome certificate.now.bound (λ n. more + n < 2 ^ 64) }
    ensures { IfOk result (λ n. notice_in n ≡ accepted_of (raised_of more certificate.now)) }
{
    let bound = raised(certificate.bound, more);
    Ok(Notice {
        status: Status::Done,
        lines: line_with_bound(alloc, "accepted", bound, certificate.left)?,
    })
}

/// The reply to the texts of a plan, of which the first `k` plates are cut already, and of a certificate: the bound with what
/// these plates lose, and the number of open boxes, or a refusal.
fn verify_behind<R: Threads + Sync, L: Listener>(
    alloc: Global,
    ground: Ground<'_>,
    plan_text: &[u8],
    cert_text: &[u8],
    k: u32,
    search: &FrontSearch<'_, R, L>,
) -> Result<Reply, Memory>
    ensures { IfOk result (λ r. (name : Product → List ℕ)
        → VerifiesBehind ground.entry.instance.now k plan_text.now cert_text.now
        (answer_in name r)) }
{
    // Read for its rules.
    let _items = ground.instance.items();
    match accepted_behind(alloc, ground, plan_text, cert_text, k, search) {
        Ok(checked) => {
            let more = frozen_loss(ground.instance, &checked.plan, k);
            let notice = accepted_with(alloc, &checked.certificate, more)?;
            Ok(reply_with(alloc, notice))
        }
        Err(stop) => reply_at(alloc, stop),
    }
}

/// A text, empty where there is none.
fn or_empty(text: Option<&[u8]>) -> &[u8]
    ensures { result.now ≡ unwrap_or (option_map (λ bytes. bytes.now) text.entry) [] }
{
    match text {
        Some(bytes) => bytes,
        None => &[],
    }
}

/// The reply to the texts of a plan, or none, and of a certificate: its bound and its number of open boxes, or a refusal. The
/// first `k` plates of the plan are cut already.
pub fn verify_from<R: Threads + Sync, L: Listener>(
    alloc: Global,
    ground: Ground<'_>,
    plan_text: Option<&[u8]>,
    cert_text: &[u8],
    k: u32,
    search: &FrontSearch<'_, R, L>,
) -> Result<Reply, Memory>
    ensures { IfOk result (λ r. (name : Product → List ℕ)
        → VerifiesFrom k ground.entry.instance.now (option_map
        (λ bytes. bytes.now) plan_text.entry) cert_text.now (answer_in name r)) }
{
    if k == 0 {
        return verify_texts(alloc, ground, plan_text, cert_text, search);
    }
    verify_behind(alloc, ground, or_empty(plan_text), cert_text, k, search)
}
