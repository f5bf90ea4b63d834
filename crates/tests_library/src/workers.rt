//! The work of one worker.
ghost use Rattle.std.specs.Prelude.{◌≡◌, ◌≤◌, IfOk};
ghost use Rattle.plan_box.specs.Frames.{IsFrame, frame_of};
ghost use Rattle.box_ring.specs.Arms.{frame as frame_at};

use box_ring::{Arm, ring};
use box_workers::{Hand, NoPoster, OpenGate, Rest, work};
use defect_map::DefectMap;
use glass_base::limits::MOST_BUDGET;
use glass_base::{Instance, Item, Memory, Params, Run, append};
use plan_box::{Frame, PlanBox};
use shared_best::{NONE, SharedBest};
use std::alloc::Global;
use std::process::Abort;
use std::sync::Wait;
use std::test::Fail;

/// The instance of one item of 500 by 300.
pub(crate) fn small(alloc: Global) -> Result<Instance, Fail> {
    let mut items = Run::new(alloc);
    let item = Item {
        id: 0,
        length: 500,
        width: 300,
        stack: 0,
        sequence: 1,
    };
    append(&mut items, item)?;
    Ok(Instance::new(alloc, Params::usual(), items, Run::new(alloc))?)
}

/// The arm of a ring for one worker. Its deque holds the box of all plans.
fn ready(alloc: Global, frame: Frame) -> Result<Arm, Fail>
    requires { IsFrame frame }
    ensures { IfOk result (λ arm. (frame_at arm ≡ frame) × (arm.misses ≡ 0)) }
{
    let mut arms = ring(alloc, 1, frame)?;
    let Some(mut arm) = arms.pop() else {
        unreachable!()
    };
    match arm.push(PlanBox::of_frame(alloc, frame, 0)) {
        Ok(()) => Ok(arm),
        Err(_) => Err(Memory.into()),
    }
}

/// How one worker rests that works on this instance without a first plan, and its hand then.
fn worked<R: Wait>(
    rt: &R,
    alloc: Global,
    instance: &Instance,
    map: &DefectMap,
    budget: u64,
    arm: &mut Arm,
) -> Result<(Rest, Hand), Memory>
    requires map { map.now ≡ instance.now.defects }
    requires budget { budget ≤ MOST_BUDGET }
    requires ring { frame_at arm.old ≡ frame_of instance.now }
    requires misses { arm.old.misses ≡ 0 }
{
    let (shared, mut seat) = SharedBest::new(alloc, NONE, budget)?;
    let mut hand = Hand::new(alloc, instance, 0)?;
    let rest = work(
        rt,
        alloc,
        instance,
        map,
        &shared,
        &mut seat,
        &mut hand,
        1,
        arm,
        &OpenGate,
        &mut NoPoster,
    )?;
    Ok((rest, hand))
}

/// The ticket and the identity of the note in this place.
fn noted(hand: &Hand, place: usize) -> Option<(u64, u64)> {
    hand.log
        .as_slice()
        .get(place)
        .map(|note| (note.ticket, note.id))
}

/// The identity of the box in this place of those left open.
fn left(hand: &Hand, place: usize) -> Option<u64> {
    hand.left.as_slice().get(place).map(|left| left.bx.id())
}

/// The identity of the last box in the arm's deque.
fn popped(arm: &mut Arm) -> Option<u64> {
    arm.pop().map(|bx| bx.id())
}

/// Three boxes were split, and one is left open.
fn hand_is_as_wanted(rt: &impl Abort, hand: &Hand) {
    let notes = [
        noted(hand, 0),
        noted(hand, 1),
        noted(hand, 2),
        noted(hand, 3),
    ];
    assert_eq!(rt; notes, [Some((0, 0)), Some((1, 1)), Some((2, 3)), None]);
    assert_eq!(rt; [left(hand, 0), left(hand, 1)], [Some(5), None]);
}

/// The upper halves are in the deque, in the order in which they were made.
fn arm_is_as_wanted(rt: &impl Abort, arm: &mut Arm) {
    let waiting = [popped(arm), popped(arm), popped(arm), popped(arm)];
    assert_eq!(rt; waiting, [Some(6), Some(4), Some(2), None]);
}

/// A worker with a budget of three boxes rests as wanted.
fn rests_as_wanted<R: Wait + Abort>(
    rt: &R,
    alloc: Global,
    instance: &Instance,
    map: &DefectMap,
) -> Result<(), Fail>
    requires map { map.now ≡ instance.now.defects }
{
    let mut arm = ready(alloc, Frame::of(instance))?;
    let (rest, hand) = worked(rt, alloc, instance, map, 3, &mut arm)?;
    assert_eq!(rt; rest, Rest::Spent);
    hand_is_as_wanted(rt, &hand);
    arm_is_as_wanted(rt, &mut arm);
    Ok(())
}

// The stack is a single number from the start, turn, kind and lift are not; so the first boxes are all undecided, each is split, and its
// lower half is handled next. The upper halves are in the deque behind it, in the order in which they were made.
#[test]
fn a_worker_rests_where_the_budget_is_spent(rt: HostRuntime) -> Result<(), Fail> {
    let instance = small(rt.alloc())?;
    let map = DefectMap::new(rt.alloc(), &instance)?;
    rests_as_wanted(&rt, rt.alloc(), &instance, &map)
}
