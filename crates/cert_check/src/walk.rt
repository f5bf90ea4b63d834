//! A walk over the nodes of a certificate.

ghost use Rattle.std.specs.Prelude.{◌≡◌, ◌≢◌, ◌<◌, ◌≤◌, ◌+◌, ◌-◌, ◌^◌, ◌⊎◌, ◌∷◌, [], ◌↔◌, length, map, IfOk, OnOk, IsTrue, MatchBool, MatchOption};
ghost use Rattle.plan_box.specs.Packed.{unpacked};
ghost use Rattle.cert_check.specs.inner.Paths.{AreStored};
ghost use Rattle.plan_box.specs.Frames.{frame_of};
ghost use Rattle.plan_box.specs.Ranges.{root_of};
ghost use Rattle.cert_log.specs.Good.{Reaches, MayClose, NodePasses};
ghost use Rattle.plan_box.specs.Bounds.{bound as bound_of};
ghost use Rattle.plan_box.specs.Reasons.{IsFirstReason, IsRefuted};
ghost use Rattle.cert_log.specs.Trees.{IsTree};
ghost use Rattle.cert_check.specs.inner.Knowns.{HasRoom};
ghost use Rattle.cert_check.specs.inner.Paths.{top};
ghost use Rattle.cert_check.specs.Faults.{FailsToClose, FallsShort, IsOtherReason, NodeFails};
ghost use Rattle.cert_check.specs.inner.Walks.{Counts, Finds};

use crate::bounding::bound;
use crate::free::is_free_at;
use crate::path::Path;
use crate::refuting::first_reason;
use crate::scratch::Scratch;
use crate::verdict::Why;
use cert_log::{Cause, Certificate, Node, with_bound};
use defect_map::{DefectMap, Ground};
use glass_base::{Instance, Memory};
use plan_box::{Packed, Reason};
use std::alloc::Global;

/// Where a walk is in the text.
#[derive(Clone, Copy, Debug, PartialEq, Eq)]
pub struct TextPlace {
    /// The line of the last node.
    pub line: u64,
    /// The last node is open.
    pub after_open: bool,
}

/// What a walk counts.
#[derive(Clone, Copy, Debug, PartialEq, Eq)]
pub struct NodeCounts {
    /// The least of the loss and of the bounds of the open nodes.
    pub least: Option<u64>,
    /// The number of open nodes.
    pub left: u64,
}

/// How a walk ends.
#[derive(Clone, Copy, Debug, PartialEq, Eq)]
pub enum Walked {
    /// Each node may stand at its box.
    Whole(NodeCounts),
    /// The first node that may not.
    Fault(u64, Why),
}

impl TextPlace {
    ghost use Rattle.std.specs.Prelude.{◌<◌, ◌^◌};
    ghost use Rattle.cert_check.specs.inner.Walks.{Reads};

    /// Reads one more node. From version 2 on open nodes in a row share a line.
    fn read(&mut self, version: u32, node: Node)
        requires { self.old.line < 2 ^ 64 - 1 }
        ensures { Reads version node self.old self.new }
    {
        let is_left = matches!(node, Node::Left);
        let joins = version != 1 && self.after_open && is_left;
        if !joins {
            self.line += 1;
        }
        self.after_open = is_left;
    }
}

/// Whether a bound is at least the loss; never where there is none.
fn reaches(loss: Option<u64>, bound: u64) -> bool
    ensures { IsTrue result ↔ Reaches loss bound }
{
    match loss {
        Some(loss) => loss <= bound,
        None => false,
    }
}

/// Why a box may not be closed for this reason, if it may not.
fn judge_reason(
    ground: Ground<'_>,
    reason: Reason,
    ranges: &[Packed],
    scratch: &mut Scratch,
) -> Option<Why>
    requires stored { AreStored (frame_of ground.instance.now) ranges.now }
    requires each_step { length ranges.now ≡ length ground.instance.now.items }
    requires room { HasRoom (length ground.instance.now.items) scratch.old }
    ensures judged { let b = ground.entry.instance.now in
        MatchOption result (IsFirstReason b (map unpacked ranges.now) reason)
        (IsOtherReason b (map unpacked ranges.now) reason) }
    ensures room { HasRoom (length ground.entry.instance.now.items) scratch.new }
{
    let said = reason.number();
    match first_reason(
        ground,
        ranges,
        &mut scratch.steps,
        &mut scratch.taken,
        &mut scratch.numbers,
    ) {
        Some(first) => {
            let found = first.number();
            if said == found {
                None
            } else {
                Some(Why::WrongCause(said, found))
            }
        }
        None => Some(Why::WrongCause(said, 0)),
    }
}

/// Why a box may not be closed by this bound on the loss of its plans, if it may not.
fn judge_number(loss: Option<u64>, number: u64) -> Option<Why>
    ensures { MatchOption result (Reaches loss number) (FallsShort loss number) }
{
    if reaches(loss, number) {
        None
    } else {
        Some(Why::NotClosed(number, loss))
    }
}

/// Why a box may not be closed by its bound, if it may not.
fn judge_bound(
    instance: &Instance,
    loss: Option<u64>,
    ranges: &[Packed],
    scratch: &mut Scratch,
) -> Option<Why>
    requires stored { AreStored (frame_of instance.now) ranges.now }
    requires each_step { length ranges.now ≡ length instance.now.items }
    requires room { HasRoom (length instance.now.items) scratch.old }
    ensures judged { MatchOption result (Reaches loss
        (bound_of instance.now (map unpacked ranges.now)))
        (FallsShort loss (bound_of instance.now (map unpacked ranges.now))) }
    ensures room { HasRoom (length instance.now.items) scratch.new }
{
    let bound = bound(instance, ranges, &mut scratch.steps, &mut scratch.taken);
    judge_number(loss, bound)
}

/// Whether some reason applies to a box.
fn is_refuted(ground: Ground<'_>, ranges: &[Packed], scratch: &mut Scratch) -> bool
    requires stored { AreStored (frame_of ground.instance.now) ranges.now }
    requires each_step { length ranges.now ≡ length ground.instance.now.items }
    requires room { HasRoom (length ground.instance.now.items) scratch.old }
    ensures refuted { let b = ground.entry.instance.now in
        MatchBool result (IsRefuted b (map unpacked ranges.now))
        (¬ IsRefuted b (map unpacked ranges.now)) }
    ensures room { HasRoom (length ground.entry.instance.now.items) scratch.new }
{
    let first = first_reason(
        ground,
        ranges,
        &mut scratch.steps,
        &mut scratch.taken,
        &mut scratch.numbers,
    );
    first.is_some()
}

/// What a certificate is to show, in mm².
#[derive(Clone, Copy)]
pub struct Aim {
    /// The loss to beat.
    pub loss: Option<u64>,
    /// What the certificate says that no lawful plan is below.
    pub floor: u64,
}

/// Why a box may not be closed for this cause, if it may not.
fn judge_cause(
    ground: Ground<'_>,
    aim: Aim,
    cause: Cause,
    ranges: &[Packed],
    scratch: &mut Scratch,
) -> Option<Why>
    requires stored { AreStored (frame_of ground.instance.now) ranges.now }
    requires each_step { length ranges.now ≡ length ground.instance.now.items }
    requires room { HasRoom (length ground.instance.now.items) scratch.old }
    ensures judged { let b = ground.entry.instance.now in
        MatchOption result (MayClose b aim.floor aim.loss (map unpacked ranges.now) cause)
        (FailsToClose b aim.floor aim.loss (map unpacked ranges.now) cause) }
    ensures room { HasRoom (length ground.entry.instance.now.items) scratch.new }
{
    match cause {
        Cause::Reason(reason) => judge_reason(ground, reason, ranges, scratch),
        Cause::Bound => judge_bound(ground.instance, aim.loss, ranges, scratch),
        Cause::Floor => judge_number(aim.loss, aim.floor),
        Cause::Unsaid => {
            if is_refuted(ground, ranges, scratch) {
                return None;
            }
            judge_bound(ground.instance, aim.loss, ranges, scratch)
        }
    }
}

/// Why a node may not stand at the box at hand, if it may not.
fn judge(
    ground: Ground<'_>,
    aim: Aim,
    node: Node,
    path: &Path,
    scratch: &mut Scratch,
) -> Option<Why>
    requires frame { path.now.frame ≡ frame_of ground.instance.now }
    requires waits { path.now.boxes ≢ [] }
    requires room { HasRoom (length ground.instance.now.items) scratch.old }
    ensures judged { let b = ground.entry.instance.now in
        MatchOption result (NodePasses b aim.floor aim.loss (top path.now.boxes) node)
        (NodeFails b aim.floor aim.loss (top path.now.boxes) node) }
    ensures room { HasRoom (length ground.entry.instance.now.items) scratch.new }
{
    let ranges = path.stored();
    match node {
        Node::Split { step, var } => {
            if is_free_at(ranges, step, var) {
                None
            } else {
                Some(Why::Split(step, var))
            }
        }
        Node::Closed(cause) => judge_cause(ground, aim, cause, ranges, scratch),
        Node::Left => None,
    }
}

impl NodeCounts {
    ghost use Rattle.std.specs.Prelude.{◌≡◌, ◌≢◌, ◌<◌, ◌-◌, ◌^◌, [], length};
    ghost use Rattle.plan_box.specs.Frames.{frame_of};
    ghost use Rattle.cert_check.specs.inner.Knowns.{HasRoom};
    ghost use Rattle.cert_check.specs.inner.Paths.{top};
    ghost use Rattle.cert_check.specs.inner.Walks.{Counts};

    /// Counts a node at the box at hand; its bound is raised to the floor.
    fn count(
        &mut self,
        instance: &Instance,
        floor: u64,
        node: Node,
        path: &Path,
        scratch: &mut Scratch,
    )
        requires frame { path.now.frame ≡ frame_of instance.now }
        requires waits { path.now.boxes ≢ [] }
        requires few { self.old.left < 2 ^ 64 - 1 }
        requires room { HasRoom (length instance.now.items) scratch.old }
        ensures counts { Counts instance.now floor node (top path.now.boxes) self.old self.new }
        ensures room { HasRoom (length instance.now.items) scratch.new }
    {
        match node {
            Node::Left => {
                let bound = bound(
                    instance,
                    path.stored(),
                    &mut scratch.steps,
                    &mut scratch.taken,
                );
                self.least = with_bound(self.least, floor.max(bound));
                self.left += 1;
            }
            Node::Split { .. } | Node::Closed(_) => {}
        }
    }
}

/// Walks over the nodes of a certificate with a path that is at the root, up to the first that may not stand at its box.
fn walk_on(
    ground: Ground<'_>,
    loss: Option<u64>,
    cert: &Certificate,
    path: &mut Path,
    scratch: &mut Scratch,
) -> Result<Walked, Memory>
    requires tree { IsTree cert.now.nodes.items }
    requires frame { path.old.frame ≡ frame_of ground.instance.now }
    requires boxes { path.old.boxes ≡ (root_of (frame_of ground.instance.now) 0).ranges ∷ [] }
    requires room { HasRoom (length ground.instance.now.items) scratch.old }
    ensures { let b = ground.entry.instance.now in
        IfOk result (Finds b (root_of (frame_of b) 0).ranges loss cert.now) }
{
    let mut place = TextPlace {
        line: 1,
        after_open: false,
    };
    let mut tally = NodeCounts {
        least: loss,
        left: 0,
    };
    for node in cert.nodes.as_slice() {
        place.read(cert.version, *node);
        let aim = Aim {
            loss,
            floor: cert.floor,
        };
        if let Some(why) = judge(ground, aim, *node, path, scratch) {
            return Ok(Walked::Fault(place.line, why));
        }
        tally.count(ground.instance, cert.floor, *node, path, scratch);
        path.pass(*node)?;
    }
    Ok(Walked::Whole(tally))
}

/// Walks over the nodes of a certificate, up to the first that may not stand at its box.
pub(crate) fn walk(
    alloc: Global,
    ground: Ground<'_>,
    loss: Option<u64>,
    cert: &Certificate,
) -> Result<Walked, Memory>
    requires tree { IsTree cert.now.nodes.items }
    ensures { let b = ground.entry.instance.now in
        IfOk result (Finds b (root_of (frame_of b) 0).ranges loss cert.now) }
{
    let mut path = Path::new(alloc, ground.instance)?;
    let mut scratch = Scratch::new(alloc, ground.instance.items().len())?;
    walk_on(ground, loss, cert, &mut path, &mut scratch)
}
