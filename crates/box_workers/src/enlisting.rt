//! The workers before they work.
ghost use Rattle.std.specs.Prelude.{◌≡◌, ◌+◌, ◌≤◌, All, length, reverse, IfOk, OnOk};
ghost use Rattle.std.specs.List.{range_with_len};
ghost use Rattle.plan_box.specs.Frames.{frame_of};
ghost use Rattle.box_ring.specs.Arms.{AllOfFrame, AllFresh};
ghost use Rattle.shared_best.specs.Seats.{IsSeatOf};
ghost use Rattle.shared_best.specs.Words.{share};
ghost use Rattle.box_workers.specs.inner.Enlisting.{enough_for};
ghost use Rattle.box_workers.specs.inner.Members.{IsNew, IsReady, IsUnused, arms_of, numbers_of, share_of};

use crate::hand::Hand;
use crate::member::Member;
use box_ring::Arm;
use crossbeam_utils::CachePadded;
use glass_base::limits::MOST_BUDGET;
use glass_base::{Instance, Memory, Run};
use shared_best::{Seat, SharedBest};
use std::alloc::Global;

/// A worker for each arm, with the number of the arm and a seat of its own, which is split off the given one. The worker of the last arm
/// stands first.
pub(crate) fn enlist(
    alloc: Global,
    instance: &Instance,
    shared: &SharedBest,
    seat: &mut Seat,
    arms: Run<Arm>,
) -> Result<Vec<Member>, Memory>
    requires seat { IsSeatOf shared.now seat.old }
    requires unused { IsUnused seat.old.view }
    requires few { length arms.items ≤ 8 }
    requires allowance { enough_for (length arms.items) ≤ seat.old.view.allowance }
    requires budget { shared.now.budget ≤ MOST_BUDGET }
    requires arms { AllOfFrame (frame_of instance.now) arms.items × AllFresh arms.items }
    ensures seat { OnOk result (IsSeatOf shared.now seat.new) }
    ensures unused { OnOk result (IsUnused seat.new.view) }
    ensures allowance { OnOk result (10000001 ≤ seat.new.view.allowance) }
    ensures share { IfOk result (λ ms. share seat.new.view + share_of ms.items
        ≡ share seat.old.view) }
    ensures arms { IfOk result (λ ms. arms_of ms.items ≡ reverse arms.items) }
    ensures numbers { IfOk result (λ ms. numbers_of ms.items
        ≡ reverse (range_with_len 0 (length arms.items))) }
    ensures new { IfOk result (λ ms. All (IsNew instance.now) ms.items) }
    ensures ready { IfOk result (λ ms. All (IsReady instance.now shared.now) ms.items) }
{
    let mut members = Vec::new(alloc);
    let mut arms = arms;
    while let Some(arm) = arms.pop() {
        let own = shared.split_seat(seat);
        let hand = Hand::new(alloc, instance, arms.len() as u32)?;
        members.push(Member {
            seat: own,
            hand,
            arm,
            rest: None,
            apart: CachePadded::new(()),
        })?;
    }
    Ok(members)
}
