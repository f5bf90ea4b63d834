ghost use Rattle.std.specs.Prelude.{◌≡◌, ◌∷◌, [], IfOk};
ghost use Rattle.plan_box.specs.Frames.{IsFrame};
ghost use Rattle.box_ring.specs.Arms.{frame as frame_at, IsRing, Stays};

use box_ring::{Arm, Gathered, gather, ring};
use glass_base::{Run, append};
use plan_box::{Frame, PlanBox};
use std::alloc::Global;
use std::sync::Wait;
use std::test::Fail;
use std::thread::join;

/// The frame of one item.
const FRAME: Frame = Frame {
    items: 1,
    stacks: 1,
    width: 6000,
    height: 3210,
};

/// The two arms of a ring.
fn pair(alloc: Global) -> Result<(Arm, Arm), Fail>
    ensures ring { IfOk result (λ arms. IsRing (arms.0 ∷ arms.1 ∷ [])) }
    ensures frames { IfOk result (λ arms. (frame_at arms.0 ≡ FRAME) × (frame_at arms.1 ≡ FRAME)) }
{
    let mut arms = ring(alloc, 2, FRAME)?;
    let Some(second) = arms.pop() else {
        unreachable!()
    };
    let Some(first) = arms.pop() else {
        unreachable!()
    };
    Ok((first, second))
}

/// The arms put together.
fn together(alloc: Global, first: Arm, second: Arm) -> Result<Gathered, Fail>
    requires { IsRing (first ∷ second ∷ []) }
{
    let mut arms = Run::new(alloc);
    append(&mut arms, first)?;
    append(&mut arms, second)?;
    match gather(alloc, arms) {
        Ok(gathered) => Ok(gathered),
        Err((_, memory)) => Err(memory.into()),
    }
}

fn push(alloc: Global, arm: &mut Arm, id: u64) -> Result<(), Fail>
    requires { frame_at arm.old ≡ FRAME }
    ensures { Stays arm.old arm.new }
{
    match arm.push(PlanBox::of_frame(alloc, FRAME, id)) {
        Ok(()) => Ok(()),
        Err(_) => Err(glass_base::Memory.into()),
    }
}

fn identity(found: Option<PlanBox>) -> Option<u64> {
    found.map(|bx| bx.id())
}

#[test]
fn a_ring_hands_its_boxes_on(rt: HostRuntime) -> Result<(), Fail> {
    let (mut first, mut second) = pair(rt.alloc())?;
    push(rt.alloc(), &mut first, 0)?;
    push(rt.alloc(), &mut first, 1)?;
    let taken = [
        identity(second.steal(&rt)),
        identity(first.pop()),
        identity(first.pop()),
        identity(first.steal(&rt)),
    ];
    assert_eq!(rt;
        (taken, first.misses()),
        ([Some(0), Some(1), None, None], 1)
    );
    push(rt.alloc(), &mut second, 2)?;
    let mut gathered = together(rt.alloc(), first, second)?;
    let left = [
        identity(gathered.drain_one()),
        identity(gathered.drain_one()),
    ];
    assert_eq!(rt; left, [Some(2), None]);
    Ok(())
}

#[test]
fn a_box_that_is_popped_at_once_comes_into_no_deque(rt: HostRuntime) -> Result<(), Fail> {
    let (mut first, mut second) = pair(rt.alloc())?;
    let missed = [identity(first.pop()), identity(first.steal(&rt))];
    assert_eq!(rt; (missed, first.misses()), ([None, None], 1));
    let bx = first.push_pop(PlanBox::of_frame(rt.alloc(), FRAME, 7));
    assert_eq!(rt; (bx.id(), first.misses()), (7, 0));
    assert_eq!(rt;
        (first.is_empty(), identity(second.steal(&rt))),
        (true, None)
    );
    push(rt.alloc(), &mut first, 8)?;
    assert_eq!(rt;
        (first.is_empty(), identity(second.steal(&rt))),
        (false, Some(8))
    );
    assert_eq!(rt; first.is_empty(), true);
    Ok(())
}

/// Pushes two boxes.
fn push_two(alloc: Global, arm: Arm) -> Result<Arm, Fail>
    requires { frame_at arm ≡ FRAME }
    ensures { IfOk result (λ after. Stays arm after) }
{
    let mut arm = arm;
    push(alloc, &mut arm, 0)?;
    push(alloc, &mut arm, 1)?;
    Ok(arm)
}

/// Steals twice, and says whether each gave a box.
fn steal_two<R: Wait>(rt: &R, arm: Arm) -> (Arm, [bool; 2])
    ensures { Stays arm result.0 }
{
    let mut arm = arm;
    let stolen = [arm.steal(rt).is_some(), arm.steal(rt).is_some()];
    (arm, stolen)
}

#[test]
fn boxes_go_from_thread_to_thread(rt: HostRuntime) -> Result<(), Fail> {
    let alloc = rt.alloc();
    let (first, second) = pair(alloc)?;
    let wait = &rt;
    let (first, thief) = join(
        &rt,
        move || push_two(alloc, first),
        move || steal_two(wait, second),
    );
    let (second, stolen) = thief;
    let mut gathered = together(alloc, first?, second)?;
    let left = [
        gathered.drain_one().is_some(),
        gathered.drain_one().is_some(),
    ];
    let found = [stolen[0], stolen[1], left[0], left[1]];
    assert_eq!(rt; found.iter().filter(|is| **is).count(), 2);
    assert_eq!(rt; gathered.drain_one().is_none(), true);
    Ok(())
}
