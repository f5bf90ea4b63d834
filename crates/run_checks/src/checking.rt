//! What `verify` and `convert` answer to an instance and the texts of a plan and of a certificate.

ghost use Rattle.std.specs.Prelude.{◌≡◌, ◌⊎◌, ℕ, List, [], Ok, IfOk, MatchResult, option_map};
ghost use Rattle.cut_model.specs.Tree.{tree};
ghost use Rattle.cert_log.specs.declared.certificate.Certificate.{Certificate as CertificateOf};
ghost use Rattle.cert_log.specs.Good.{HasVersion, IsGood};
ghost use Rattle.cert_log.specs.Outcomes.{IsReading};
ghost use Rattle.cert_log.specs.Texts.{cert_text};
ghost use Rattle.cert_log.specs.Trees.{IsTree};
ghost use Rattle.run_checks.specs.Checks.{Converts, IsAccepted, IsConverted, IsLawfulPlanIn, IsLawfulToo, NoLawfulPlan, NotAccepted, Verifies, accepted as accepted_of, cert_refusal as cert_refusal_of, converted as converted_of, converted_if_short, loss_in, refused as refused_of, root_ranges, too_long_to_store as too_long_to_store_of};
ghost use Rattle.run_checks.specs.Said.{IsPlanIn};
ghost use Rattle.run_checks.specs.inner.Checked.{IsUnlawful, IsWrong, RefusesCertText, RefusesPlanText};
ghost use Rattle.run_frame.specs.Forms.{OnTold, answer_in, notice_in};
ghost use Rattle.run_checks.specs.Checks.{FitsToo};

use crate::lines::{bound_line, refused_line};
use cert_check::{Verdict, Why, check_cert, reasoned};
use cert_log::{BadCert, Certificate, read_cert, write_cert};
use command_line::Product;
use cut_model::Plan;
use defect_map::Ground;
use front_bound::front_search::FrontSearch;
use glass_base::{Instance, Listener, Memory, Role, Run};
use loss_area::loss;
use run_frame::{
    Notice, Refusal, Reply, Status, Stop, bad_input, limit, numbered, one_output, reply_at,
    reply_with, stop_at,
};
use run_plans::{lawful, read_plan_of};
use std::alloc::Global;
use std::thread::Threads;

/// The refusal of a text that is no certificate, none where memory ran out.
fn cert_refusal(reason: BadCert) -> Option<Refusal>
    ensures { result ≡ cert_refusal_of reason }
{
    match reason {
        BadCert::Memory => None,
        BadCert::Head => numbered(Role::Cert, 30, 1, 0),
        BadCert::Line(line) => numbered(Role::Cert, 31, line, 0),
        BadCert::Short(lines) => numbered(Role::Cert, 32, lines, 0),
        BadCert::Trailing(line) => numbered(Role::Cert, 33, line, 0),
    }
}

/// The notice of a certificate that fails this check.
fn check_failed(alloc: Global, line: u64, why: Why) -> Result<Notice, Memory>
    ensures { IfOk result (λ n. notice_in n ≡ refused_of line why) }
{
    Ok(Notice {
        status: Status::Refused,
        lines: refused_line(alloc, line, why)?,
    })
}

/// The notice of a certificate that is right.
fn accepted(alloc: Global, certificate: &Certificate) -> Result<Notice, Memory>
    ensures { IfOk result (λ n. notice_in n ≡ accepted_of certificate.now) }
{
    Ok(Notice {
        status: Status::Done,
        lines: bound_line(alloc, "accepted", certificate)?,
    })
}

/// What is told of a certificate that fails this check.
fn stop_at_check(alloc: Global, line: u64, why: Why) -> Stop
    ensures { OnTold (λ answer. answer ≡ refused_of line why) result }
{
    match check_failed(alloc, line, why) {
        Ok(notice) => Stop::Told(notice),
        Err(memory) => Stop::from(memory),
    }
}

/// The plan that a text says, if there is a text.
fn read_plan_in(
    alloc: Global,
    instance: &Instance,
    text: Option<&[u8]>,
) -> Result<Option<Plan>, Stop>
    ensures plan { MatchResult result (λ plan. IsPlanIn instance.now
        (option_map (λ bytes. bytes.now) text.entry) (option_map tree plan))
        (OnTold (RefusesPlanText instance.now (option_map (λ bytes. bytes.now) text.entry))) }
    ensures fits { IfOk result FitsToo }
{
    match text {
        None => Ok(None),
        Some(bytes) => Ok(Some(read_plan_of(alloc, instance, bytes)?)),
    }
}

/// The certificate that a text says.
pub(crate) fn read_cert_in(alloc: Global, text: &[u8]) -> Result<Certificate, Stop>
    ensures reading { MatchResult result (λ c. IsReading text.now (Ok c))
        (OnTold (RefusesCertText text.now)) }
    ensures tree { IfOk result (λ c. IsTree c.nodes.items) }
    ensures version { IfOk result HasVersion }
{
    match read_cert(alloc, text) {
        Ok(certificate) => Ok(certificate),
        Err(reason) => Err(stop_at(alloc, cert_refusal(reason))),
    }
}

/// Goes on where a plan is lawful, or there is none.
fn judge_plan_in(alloc: Global, ground: Ground<'_>, plan: &Option<Plan>) -> Result<(), Stop>
    requires fits { FitsToo plan.now }
    ensures { let b = ground.entry.instance.now in
        MatchResult result (λ _. IsLawfulToo b (option_map tree plan.now))
        (OnTold (IsUnlawful b (option_map tree plan.now))) }
{
    match plan {
        None => Ok(()),
        Some(plan) => lawful(alloc, ground, plan),
    }
}

/// The lawful plan that a text says, if there is a text; or what is told of the text, or of the plan.
pub fn lawful_plan_in(
    alloc: Global,
    ground: Ground<'_>,
    text: Option<&[u8]>,
) -> Result<Option<Plan>, Stop>
    ensures plan { let b = ground.entry.instance.now in
        MatchResult result (λ plan. IsLawfulPlanIn b
        (option_map (λ bytes. bytes.now) text.entry) (option_map tree plan))
        (OnTold (NoLawfulPlan b (option_map (λ bytes. bytes.now) text.entry))) }
    ensures fits { IfOk result FitsToo }
{
    let said = read_plan_in(alloc, ground.instance, text)?;
    judge_plan_in(alloc, ground, &said)?;
    Ok(said)
}

/// The loss of a plan in mm², if there is one.
fn loss_of_plan(instance: &Instance, plan: &Option<Plan>) -> Option<u64>
    requires { FitsToo plan.now }
    ensures { result ≡ loss_in instance.now (option_map tree plan.now) }
{
    match plan {
        None => None,
        Some(plan) => Some(loss(instance, plan)),
    }
}

/// Goes on where a certificate is right for the box of all plans and for this loss.
pub(crate) fn check_cert_in<R: Threads + Sync, L: Listener>(
    alloc: Global,
    ground: Ground<'_>,
    loss: Option<u64>,
    certificate: &Certificate,
    search: &FrontSearch<'_, R, L>,
) -> Result<(), Stop>
    requires tree { IsTree certificate.now.nodes.items }
    requires version { HasVersion certificate.now }
    ensures { let b = ground.entry.instance.now in
        MatchResult result (λ _. IsGood b (root_ranges b) loss certificate.now)
        (OnTold (IsWrong b loss certificate.now)) }
{
    match check_cert(
        alloc,
        ground.instance,
        ground.map,
        loss,
        certificate,
        search,
    )? {
        Verdict::Accept { .. } => Ok(()),
        Verdict::Refuse { line, why } => Err(stop_at_check(alloc, line, why)),
    }
}

/// A lawful plan, if there is one, and a certificate that is right for its loss.
#[derive(Drop)]
pub struct Checked {
    pub plan: Option<Plan>,
    pub certificate: Certificate,
}

/// The certificate that a text says, where it is right for the loss of the plan that another one says, and this is
/// lawful, with this plan; or what is told of the first that fails: the text of the plan, that of the certificate, the
/// plan, the certificate. Its floor is shown by this search over fronts.
pub fn accepted_texts<R: Threads + Sync, L: Listener>(
    alloc: Global,
    ground: Ground<'_>,
    plan_text: Option<&[u8]>,
    cert_text: &[u8],
    search: &FrontSearch<'_, R, L>,
) -> Result<Checked, Stop>
    ensures accepted { let b = ground.entry.instance.now in
        MatchResult result (λ a. IsAccepted b
        (option_map (λ bytes. bytes.now) plan_text.entry) cert_text.now
        (option_map tree a.plan) a.certificate)
        (OnTold (NotAccepted b (option_map (λ bytes. bytes.now) plan_text.entry) cert_text.now)) }
    ensures fits { IfOk result (λ a. FitsToo a.plan) }
    ensures version { IfOk result (λ a. HasVersion a.certificate) }
{
    let plan = read_plan_in(alloc, ground.instance, plan_text)?;
    let certificate = read_cert_in(alloc, cert_text)?;
    judge_plan_in(alloc, ground, &plan)?;
    let loss = loss_of_plan(ground.instance, &plan);
    check_cert_in(alloc, ground, loss, &certificate, search)?;
    Ok(Checked { plan, certificate })
}

/// The reply to the texts of a plan, or none, and of a certificate: its bound and its number of open boxes, or a refusal.
pub(crate) fn verify_texts<R: Threads + Sync, L: Listener>(
    alloc: Global,
    ground: Ground<'_>,
    plan_text: Option<&[u8]>,
    cert_text: &[u8],
    search: &FrontSearch<'_, R, L>,
) -> Result<Reply, Memory>
    ensures { IfOk result (λ r. (name : Product → List ℕ)
        → Verifies ground.entry.instance.now (option_map (λ bytes. bytes.now) plan_text.entry)
        cert_text.now (answer_in name r)) }
{
    match accepted_texts(alloc, ground, plan_text, cert_text, search) {
        Ok(texts) => Ok(reply_with(alloc, accepted(alloc, &texts.certificate)?)),
        Err(stop) => reply_at(alloc, stop),
    }
}

/// The notice of a text of this role that would be stored, and is longer than one that is read.
pub fn too_long_to_store(alloc: Global, role: Role, text: &Run<u8>) -> Result<Notice, Memory>
    ensures { IfOk result (λ n. notice_in n ≡ too_long_to_store_of role text.now.items) }
{
    bad_input(alloc, role, 18, text.len() as u64, limit(role))
}

/// The reply that stores a certificate, which has this text.
fn reply_with_text(alloc: Global, certificate: &Certificate, text: Run<u8>) -> Result<Reply, Memory>
    requires { text.items ≡ cert_text certificate.now }
    ensures { IfOk result (λ r. (name : Product → List ℕ)
        → answer_in name r ≡ converted_of (name Product.Certificate) certificate.now) }
{
    let lines = bound_line(alloc, "converted", certificate)?;
    Ok(Reply {
        status: Status::Done,
        outputs: one_output(alloc, Product::Certificate, text)?,
        lines,
    })
}

/// The reply that stores a certificate, or a refusal where its text is longer than one that is read.
fn reply_with_cert(alloc: Global, certificate: &Certificate) -> Result<Reply, Memory>
    requires { HasVersion certificate.now }
    ensures { IfOk result (λ r. (name : Product → List ℕ)
        → answer_in name r ≡ converted_if_short (name Product.Certificate) certificate.now) }
{
    let text = write_cert(alloc, certificate)?;
    if text.len() as u64 > limit(Role::Cert) {
        let notice = too_long_to_store(alloc, Role::Cert, &text)?;
        return Ok(reply_with(alloc, notice));
    }
    reply_with_text(alloc, certificate, text)
}

/// The reply that stores a right certificate with its causes named, or a refusal where what comes could not be read again.
fn convert(alloc: Global, ground: Ground<'_>, certificate: &Certificate) -> Result<Reply, Memory>
    requires good { IsGood ground.instance.now (root_ranges ground.instance.now)
        certificate.now.loss certificate.now }
    requires version { HasVersion certificate.now }
    ensures { IfOk result (λ r. (d : CertificateOf)
        × IsConverted ground.entry.instance.now certificate.now d
        × ((name : Product → List ℕ) → answer_in name r
        ≡ converted_if_short (name Product.Certificate) d)) }
{
    let named = reasoned(alloc, ground.instance, ground.map, certificate)?;
    reply_with_cert(alloc, &named)
}

/// The reply to the texts of a plan, or none, and of a certificate: the certificate is stored with its causes named, or
/// refused as by [`verify_texts`], or where what comes could not be read again.
pub fn convert_texts<R: Threads + Sync, L: Listener>(
    alloc: Global,
    ground: Ground<'_>,
    plan_text: Option<&[u8]>,
    cert_text: &[u8],
    search: &FrontSearch<'_, R, L>,
) -> Result<Reply, Memory>
    ensures { IfOk result (λ r. (name : Product → List ℕ)
        → Converts ground.entry.instance.now (option_map (λ bytes. bytes.now) plan_text.entry)
        cert_text.now (name Product.Certificate) (answer_in name r)) }
{
    let accepted = match accepted_texts(alloc, ground, plan_text, cert_text, search) {
        Ok(accepted) => accepted,
        Err(stop) => return reply_at(alloc, stop),
    };
    convert(alloc, ground, &accepted.certificate)
}
