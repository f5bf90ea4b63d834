//! Several workers at once.
ghost use Rattle.std.specs.Prelude.{◌≡◌, ℕ, ◌≤◌, ◌<◌, All, length, slice_index_or};
ghost use Rattle.box_workers.specs.declared.member.Member.{Member as MemberOf};
ghost use Rattle.box_workers.specs.inner.Members.{IsReady, HasDone, EachDone};

use crate::desk::Desk;
use crate::gate::Gate;
use crate::member::Member;
use crate::poster::Poster;
use crate::working::work_at;
use std::sync::Wait;
use std::thread;
use std::thread::Threads;

/// One worker works until it rests, and notes why. It tells a poster of its own of its plans.
fn work_member<R: Wait, G: Gate, Q: Poster + Drop>(
    rt: &R,
    desk: &Desk<'_, G>,
    poster: Q,
    member: &mut Member,
)
    requires ready { IsReady desk.now.ground.instance.now desk.now.shared.now member.old }
    ensures { HasDone desk.now.ground.instance.now desk.now.shared.now desk.now.starts
        member.old member.new }
{
    let mut poster = poster;
    let rest = work_at(
        rt,
        desk,
        &mut member.seat,
        &mut member.hand,
        &mut member.arm,
        &mut poster,
    );
    member.rest = rest.ok();
}

/// All workers work at once, each in a thread of its own where one can be made.
fn work_members<R: Threads + Wait + Sync, G: Gate + Sync, Q: Poster + Copy + Drop + Sync>(
    rt: &R,
    desk: &Desk<'_, G>,
    poster: &Q,
    members: &mut [Member],
)
    requires ready { All (IsReady desk.now.ground.instance.now desk.now.shared.now) members.old }
    ensures len { length members.new ≡ length members.old }
    ensures each { (i : ℕ) (d : MemberOf) → i < length members.old
        → HasDone desk.now.ground.instance.now desk.now.shared.now desk.now.starts
        (slice_index_or members.old i d) (slice_index_or members.new i d) }
{
    let threads = members.len();
    if threads == 0 {
        return;
    }
    thread::for_each_mut(
        rt,
        members,
        threads,
        &|_, member| { work_member(rt, desk, *poster, member) },
    );
}

/// All workers of a list work at once, each in a thread of its own where one can be made.
pub(crate) fn work_all<R: Threads + Wait + Sync, G: Gate + Sync, Q: Poster + Copy + Drop + Sync>(
    rt: &R,
    desk: &Desk<'_, G>,
    poster: &Q,
    members: Vec<Member>,
) -> Vec<Member>
    requires ready { All (IsReady desk.now.ground.instance.now desk.now.shared.now) members.items }
    ensures { EachDone desk.now.ground.instance.now desk.now.shared.now desk.now.starts
        members.items result.items }
{
    let mut members = members;
    work_members(rt, desk, poster, members.as_mut_slice());
    members
}
