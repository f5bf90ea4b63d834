//! The boxes that a certificate leaves open: one walk over its nodes, with the boxes that wait.

ghost use Rattle.std.specs.Prelude.{◌≡◌, ◌++◌, All, IfOk, OnOk, count_by, length};
ghost use Rattle.plan_box.specs.Frames.{frame_of};
ghost use Rattle.plan_box.specs.Halves.{lower_half, upper_half, child_of};
ghost use Rattle.plan_box.specs.Ranges.{PlainBox, root_of};
ghost use Rattle.cert_log.specs.Lawful.{numbered};
ghost use Rattle.cert_log.specs.Trees.{is_left};
ghost use Rattle.cert_resume.specs.OpenBoxes.{AreLeftBoxes, CanBeWalked};
ghost use Rattle.cert_resume.specs.inner.Walks.{MayPass, boxes_behind, left_at};

use cert_log::{Certificate, Node};
use glass_base::{Instance, Memory, Run, append};
use plan_box::{PlanBox, Var};
use std::alloc::Global;

/// The boxes of a walk over the nodes of a certificate.
#[derive(Drop)]
struct Boxes {
    /// Those that wait, the next one at the end.
    waiting: Run<PlanBox>,
    /// Those of open nodes, with the identities from 0 on.
    left: Run<PlanBox>,
}

impl Boxes {
    ghost use Rattle.std.specs.Prelude.{◌≡◌, ◌++◌, OnOk, length};
    ghost use Rattle.plan_box.specs.Frames.{frame_of};
    ghost use Rattle.cert_resume.specs.inner.Walks.{MayPass, boxes_behind, left_at};

    /// The halves of a box at a free variable wait, the lower one as the next. Their identities do not matter.
    fn split(
        &mut self,
        alloc: Global,
        instance: &Instance,
        step: u32,
        var: Var,
        bx: PlanBox,
    ) -> Result<(), Memory>
        requires frame { bx.frame ≡ frame_of instance.now }
        requires may { MayPass bx.ranges (Node.Split step var) }
        ensures waiting { OnOk result (self.new.waiting.items ≡ self.old.waiting.items
            ++ boxes_behind (Node.Split step var) bx) }
        ensures left { self.new.left ≡ self.old.left }
    {
        match bx.split(alloc, instance, step, var, (0, 0)) {
            Ok((lower, upper)) => {
                append(&mut self.waiting, upper)?;
                append(&mut self.waiting, lower)
            }
            Err((_, memory)) => Err(memory),
        }
    }

    /// Goes on behind a node at its box: the halves of a box that is split wait, and one that is open is numbered and
    /// kept.
    fn pass(
        &mut self,
        alloc: Global,
        instance: &Instance,
        node: Node,
        bx: PlanBox,
    ) -> Result<(), Memory>
        requires frame { bx.frame ≡ frame_of instance.now }
        requires may { MayPass bx.ranges node }
        ensures waiting { OnOk result (self.new.waiting.items
            ≡ self.old.waiting.items ++ boxes_behind node bx) }
        ensures left { OnOk result (self.new.left.items
            ≡ self.old.left.items ++ left_at (length self.old.left.items) node bx) }
    {
        match node {
            Node::Split { step, var } => self.split(alloc, instance, step, var, bx),
            Node::Closed(_) => Ok(()),
            Node::Left => {
                let id = self.left.len() as u64;
                append(&mut self.left, bx.with_id(id))
            }
        }
    }
}

/// The boxes of a certificate's open nodes, in the order of the nodes and with the identities from 0 on, as a search takes its start boxes.
///
/// Only want of memory is refused. Beside these boxes it takes memory for those that wait: one for each split on the path to the box at hand.
pub fn left_boxes(
    alloc: Global,
    instance: &Instance,
    cert: &Certificate,
) -> Result<Run<PlanBox>, Memory>
    requires { CanBeWalked (root_of (frame_of instance.now) 0).ranges cert.now.nodes.items }
    ensures boxes { IfOk result (λ boxes. AreLeftBoxes instance.now cert.now boxes.items) }
    ensures ids { IfOk result (λ boxes. numbered 0 boxes.items) }
    ensures frames { IfOk result (λ boxes. All (λ (x : PlainBox). x.frame
        ≡ frame_of instance.now) boxes.items) }
    ensures count { IfOk result (λ boxes. length boxes.items
        ≡ count_by is_left cert.now.nodes.items) }
{
    let mut waiting = Run::new(alloc);
    append(&mut waiting, PlanBox::root(alloc, instance, 0)?)?;
    let mut boxes = Boxes {
        waiting,
        left: Run::new(alloc),
    };
    for node in cert.nodes.as_slice() {
        let Some(bx) = boxes.waiting.pop() else {
            unreachable!();
        };
        boxes.pass(alloc, instance, *node, bx)?;
    }
    Ok(boxes.left)
}
