//! What the commands that do not search answer to their texts.

ghost use Rattle.std.specs.Prelude.{◌≡◌, ◌↔◌, IfOk, IsTrue, MatchResult, option_map};
ghost use Rattle.command_line.specs.Grammar.{Line, lead_in, stored_as};
ghost use Rattle.command_line.specs.Lines.{line_in};
ghost use Rattle.glass_gen.specs.Drawn.{IsDrawn};
ghost use Rattle.glass_run.specs.Commands.{AnswersInstance, HasInstance, HasNoInstance, Searches, flaws_of};
ghost use Rattle.glass_run.specs.inner.Asked.{IsAsked, MaySearch};
ghost use Rattle.run_frame.specs.Forms.{OnTold, answer_in, texts_in};

use box_workers::Gate;
use command_line::{CommandLine, Count, Lead, Verb};
use defect_map::Ground;
use front_bound::front_search::FrontSearch;
use glass_base::{Instance, Memory, Role, Run};
use glass_gen::generate;
use run_checks::{convert_texts, verify_from};
use run_frame::{Reply, Stop, Text, reply_at, reply_with, text_of_role, text_or_empty};
use run_plans::{Grounded, draft_instance, instance_of, judge_text, replay_text, sheet_text};
use std::alloc::Global;
use std::thread::Threads;

/// What a command comes to without a search.
#[derive(Drop)]
pub(crate) enum Asked {
    /// Its reply.
    Reply(Reply),
    /// A search in this instance, beside these texts.
    Search {
        grounded: Grounded,
        texts: Run<Text>,
    },
}

/// Whether a command searches.
pub(crate) fn searches(verb: Verb) -> bool
    ensures { IsTrue result ↔ Searches verb }
{
    matches!(verb, Verb::Plan | Verb::Gen | Verb::Resume | Verb::Freeze)
}

/// The reply of a command that does not search for a plan to the instance that its texts say. How far a search over
/// fronts is that shows a floor, is told to the gate.
fn reply_at_once<R: Threads + Sync, G: Gate>(
    rt: &R,
    alloc: Global,
    line: &CommandLine<'_>,
    texts: &[Text],
    ground: Ground<'_>,
    gate: &G,
) -> Result<Reply, Memory>
    requires { Searches (line_in line.now).verb → ⊥ }
    ensures { let said = line_in line.now in IfOk result
        (λ r. AnswersInstance said.verb said (texts_in texts.now) ground.entry.instance.now
        (answer_in (stored_as said) r)) }
{
    let search = FrontSearch {
        labels: u64::from(line.count(Count::FrontsLimit)),
        rt,
        threads: line.count(Count::Checkers),
        listener: gate,
    };
    match line.verb {
        Verb::Draft => draft_instance(alloc, ground),
        Verb::Judge => {
            let notice = judge_text(alloc, ground, text_or_empty(texts, Role::Plan))?;
            Ok(reply_with(alloc, notice))
        }
        Verb::Verify => {
            let plan = text_of_role(texts, Role::Plan);
            let k = line.count(Count::Frozen);
            let cert = text_or_empty(texts, Role::Cert);
            verify_from(alloc, ground, plan, cert, k, &search)
        }
        Verb::Convert => {
            let plan = text_of_role(texts, Role::Plan);
            let cert = text_or_empty(texts, Role::Cert);
            convert_texts(alloc, ground, plan, cert, &search)
        }
        Verb::Sheet => sheet_text(alloc, ground, text_or_empty(texts, Role::Plan)),
        Verb::Replay => {
            let notice = replay_text(alloc, ground.instance, text_or_empty(texts, Role::Sheet))?;
            Ok(reply_with(alloc, notice))
        }
        Verb::Plan | Verb::Gen | Verb::Resume | Verb::Freeze => unreachable!(),
    }
}

/// The text of the defects that a command plans with. A draft is made on plates without defects.
fn flaws(verb: Verb, texts: &[Text]) -> Option<&[u8]>
    ensures { option_map (λ bytes. bytes.now) result ≡ flaws_of verb (texts_in texts.now) }
{
    match verb {
        Verb::Draft => None,
        Verb::Plan
        | Verb::Gen
        | Verb::Judge
        | Verb::Verify
        | Verb::Convert
        | Verb::Resume
        | Verb::Freeze
        | Verb::Sheet
        | Verb::Replay => text_of_role(texts, Role::Defects),
    }
}

/// The instance that the numbers of a line give.
fn drawn_instance(alloc: Global, line: &CommandLine<'_>) -> Result<Instance, Memory>
    ensures { let said = line_in line.now in IfOk result
        (λ instance. IsDrawn instance (lead_in said Lead.Start) (lead_in said Lead.Items)
        (lead_in said Lead.Defects)) }
{
    let start = line.lead(Lead::Start);
    let items = line.lead(Lead::Items);
    let defects = line.lead(Lead::Defects);
    generate(alloc, start, items, defects)
}

/// The instance of a line: the one that its texts say, or the one that its numbers give.
fn instance_for(alloc: Global, line: &CommandLine<'_>, texts: &[Text]) -> Result<Instance, Stop>
    ensures { let said = line_in line.now in MatchResult result
        (HasInstance said.verb said (texts_in texts.now))
        (OnTold (HasNoInstance said.verb (texts_in texts.now))) }
{
    match line.verb {
        Verb::Gen => Ok(drawn_instance(alloc, line)?),
        Verb::Draft
        | Verb::Plan
        | Verb::Judge
        | Verb::Verify
        | Verb::Convert
        | Verb::Resume
        | Verb::Freeze
        | Verb::Sheet
        | Verb::Replay => instance_of(alloc, texts, flaws(line.verb, texts)),
    }
}

/// What a command comes to with its texts, as far as that takes no search.
pub(crate) fn asked_of_texts<R: Threads + Sync, G: Gate>(
    rt: &R,
    alloc: Global,
    line: &CommandLine<'_>,
    texts: Run<Text>,
    gate: &G,
) -> Result<Asked, Memory>
    ensures asked { let said = line_in line.now in
        IfOk result (IsAsked said (texts_in texts.items)) }
    ensures searches { IfOk result (MaySearch (line_in line.now)) }
{
    let instance = match instance_for(alloc, line, texts.as_slice()) {
        Ok(instance) => instance,
        Err(stop) => return Ok(Asked::Reply(reply_at(alloc, stop)?)),
    };
    let grounded = Grounded::new(alloc, instance)?;
    if searches(line.verb) {
        return Ok(Asked::Search { grounded, texts });
    }
    let reply = reply_at_once(rt, alloc, line, texts.as_slice(), grounded.ground(), gate)?;
    Ok(Asked::Reply(reply))
}
