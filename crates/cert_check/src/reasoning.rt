//! The causes of closed nodes, where a certificate does not say them.

ghost use Rattle.std.specs.Prelude.{◌≡◌, ◌≢◌, ◌≤◌, [], ◌∷◌, IfOk, length, map};
ghost use Rattle.std.specs.List.{AllZip};
ghost use Rattle.plan_box.specs.Frames.{frame_of};
ghost use Rattle.plan_box.specs.Packed.{unpacked};
ghost use Rattle.plan_box.specs.Ranges.{root_of};
ghost use Rattle.cert_log.specs.Good.{HasVersion, IsGood};
ghost use Rattle.cert_check.specs.Causes.{IsNamed, IsReasoned, IsTrueCause};
ghost use Rattle.cert_check.specs.inner.Knowns.{HasRoom};
ghost use Rattle.cert_check.specs.inner.Naming.{IsNamedAt, IsNamedNode};
ghost use Rattle.cert_check.specs.inner.Paths.{AreStored, top};
ghost use Rattle.cert_check.specs.inner.Walks.{visits_from};

use crate::path::Path;
use crate::refuting::first_reason;
use crate::scratch::Scratch;
use cert_log::{Cause, Certificate, Node};
use defect_map::{DefectMap, Ground};
use glass_base::{Instance, Memory, Run, append};
use plan_box::Packed;
use std::alloc::Global;

/// The true cause for which a box is closed: the first reason that applies to it, or else its bound.
fn true_cause(ground: Ground<'_>, ranges: &[Packed], scratch: &mut Scratch) -> Cause
    requires stored { AreStored (frame_of ground.instance.now) ranges.now }
    requires each_step { length ranges.now ≡ length ground.instance.now.items }
    requires room { HasRoom (length ground.instance.now.items) scratch.old }
    ensures cause { IsTrueCause ground.entry.instance.now (map unpacked ranges.now) result }
    ensures room { HasRoom (length ground.entry.instance.now.items) scratch.new }
{
    match first_reason(
        ground,
        ranges,
        &mut scratch.steps,
        &mut scratch.taken,
        &mut scratch.numbers,
    ) {
        Some(reason) => Cause::Reason(reason),
        None => Cause::Bound,
    }
}

/// A cause that was said, or the true one.
fn name_cause(ground: Ground<'_>, cause: Cause, ranges: &[Packed], scratch: &mut Scratch) -> Cause
    requires stored { AreStored (frame_of ground.instance.now) ranges.now }
    requires each_step { length ranges.now ≡ length ground.instance.now.items }
    requires room { HasRoom (length ground.instance.now.items) scratch.old }
    ensures named { IsNamed ground.entry.instance.now (map unpacked ranges.now) cause result }
    ensures room { HasRoom (length ground.entry.instance.now.items) scratch.new }
{
    match cause {
        Cause::Unsaid => true_cause(ground, ranges, scratch),
        Cause::Bound => Cause::Bound,
        Cause::Floor => Cause::Floor,
        Cause::Reason(reason) => Cause::Reason(reason),
    }
}

/// The node with its cause named, where it stands at the box at hand.
fn name_node(ground: Ground<'_>, node: Node, path: &Path, scratch: &mut Scratch) -> Node
    requires frame { path.now.frame ≡ frame_of ground.instance.now }
    requires waits { path.now.boxes ≢ [] }
    requires room { HasRoom (length ground.instance.now.items) scratch.old }
    ensures named { IsNamedNode ground.entry.instance.now (top path.now.boxes) node result }
    ensures room { HasRoom (length ground.entry.instance.now.items) scratch.new }
{
    match node {
        Node::Closed(cause) => {
            let named = name_cause(ground, cause, path.stored(), scratch);
            Node::Closed(named)
        }
        Node::Split { step, var } => Node::Split { step, var },
        Node::Left => Node::Left,
    }
}

/// The nodes of a certificate with their causes named, by a path that is at the root.
fn name_on(
    alloc: Global,
    ground: Ground<'_>,
    cert: &Certificate,
    path: &mut Path,
    scratch: &mut Scratch,
) -> Result<Run<Node>, Memory>
    requires good { IsGood ground.instance.now (root_of
        (frame_of ground.instance.now) 0).ranges cert.now.loss cert.now }
    requires frame { path.old.frame ≡ frame_of ground.instance.now }
    requires boxes { path.old.boxes ≡ (root_of (frame_of ground.instance.now) 0).ranges ∷ [] }
    requires room { HasRoom (length ground.instance.now.items) scratch.old }
    ensures { let b = ground.entry.instance.now in
        IfOk result (λ run. AllZip (IsNamedAt b)
        (visits_from ((root_of (frame_of b) 0).ranges ∷ []) cert.now.nodes.items) run.items) }
{
    let mut nodes = Run::new(alloc);
    for node in cert.nodes.as_slice() {
        let named = name_node(ground, *node, path, scratch);
        append(&mut nodes, named)?;
        path.pass(*node)?;
    }
    Ok(nodes)
}

/// The nodes of a certificate with their causes named.
fn name_nodes(alloc: Global, ground: Ground<'_>, cert: &Certificate) -> Result<Run<Node>, Memory>
    requires good { IsGood ground.instance.now (root_of
        (frame_of ground.instance.now) 0).ranges cert.now.loss cert.now }
    ensures { let b = ground.entry.instance.now in
        IfOk result (λ run. AllZip (IsNamedAt b)
        (visits_from ((root_of (frame_of b) 0).ranges ∷ []) cert.now.nodes.items) run.items) }
{
    let mut path = Path::new(alloc, ground.instance)?;
    let mut scratch = Scratch::new(alloc, ground.instance.items().len())?;
    name_on(alloc, ground, cert, &mut path, &mut scratch)
}

/// The certificate of version 2, or of the same later one, that says the same as one that is right for the box of all plans. Where a closed node has no cause, it is the
/// first reason that applies to its box, or the bound where none does.
///
/// Only want of memory is refused. It takes memory for the nodes, and some that depends on the instance and the depth of the tree.
pub fn reasoned(
    alloc: Global,
    instance: &Instance,
    map: &DefectMap,
    cert: &Certificate,
) -> Result<Certificate, Memory>
    requires map { map.now ≡ instance.now.defects }
    requires good { IsGood instance.now (root_of
        (frame_of instance.now) 0).ranges cert.now.loss cert.now }
    requires version { HasVersion cert.now }
    ensures good { IfOk result (λ d. IsGood instance.now
        (root_of (frame_of instance.now) 0).ranges cert.now.loss d) }
    ensures reasoned { IfOk result (λ d. IsReasoned instance.now
        (root_of (frame_of instance.now) 0).ranges cert.now d) }
    ensures version { IfOk result HasVersion }
    ensures later { IfOk result (λ d. 2 ≤ d.version) }
{
    let nodes = name_nodes(alloc, Ground { instance, map }, cert)?;
    Ok(Certificate {
        version: cert.version.max(2),
        loss: cert.loss,
        bound: cert.bound,
        left: cert.left,
        floor: cert.floor,
        nodes,
    })
}
