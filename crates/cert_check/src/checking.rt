//! The check of a certificate.

ghost use Rattle.std.specs.Prelude.{◌≡◌, [], IfOk};
ghost use Rattle.plan_box.specs.Frames.{frame_of};
ghost use Rattle.plan_box.specs.Ranges.{root_of};
ghost use Rattle.cert_log.specs.Trees.{IsTree};
ghost use Rattle.cert_log.specs.Values.{IsVersionNumber};
ghost use Rattle.cert_check.specs.Faults.{Answers};
ghost use Rattle.cert_check.specs.inner.Walks.{Closes, JudgesFloor};

use crate::verdict::{Verdict, Why};
use crate::walk::{NodeCounts, Walked, walk};
use cert_log::Certificate;
use defect_map::{DefectMap, Ground};
use front_bound::front_search::FrontSearch;
use front_bound::losses::floor_up_to;
use glass_base::{Instance, Listener, Memory};
use std::alloc::Global;
use std::thread::Threads;

/// What is wrong where each node may stand at its box: the said number of open nodes is tested, then the said bound.
fn judge_counts(cert: &Certificate, tally: NodeCounts) -> Option<Why>
    ensures { Closes cert.now tally result }
{
    if cert.left != tally.left {
        return Some(Why::WrongOpen(cert.left, tally.left));
    }
    if cert.bound != tally.least {
        return Some(Why::WrongBound(cert.bound, tally.least));
    }
    None
}

/// The answer where all else is right: whether fronts show the said floor.
fn judge_floor<R: Threads + Sync, L: Listener>(
    alloc: Global,
    instance: &Instance,
    cert: &Certificate,
    search: &FrontSearch<'_, R, L>,
) -> Result<Verdict, Memory>
    ensures { IfOk result (JudgesFloor instance.now cert.now) }
{
    let found = floor_up_to(alloc, instance, cert.floor, search)?;
    if found < cert.floor {
        return Ok(Verdict::Refuse {
            line: 1,
            why: Why::WrongFloor(cert.floor, found),
        });
    }
    Ok(Verdict::Accept {
        bound: cert.bound,
        left: cert.left,
    })
}

/// Whether a certificate is right for the box of all plans, where this is the loss in mm² of the best plan that is known.
///
/// Where it is accepted, each lawful plan loses at least its bound
/// (`cert_log::laws::good_certificates_bound_each_plan`). A floor is accepted where this search over fronts shows it
/// (`front_bound::losses::floor_up_to`), and else refused, though it may hold. Only want of memory is refused; how much
/// is taken depends on the instance and the depth of the tree, and not on the number of nodes; for a floor also on the
/// number of fronts and labels.
pub fn check_cert<R: Threads + Sync, L: Listener>(
    alloc: Global,
    instance: &Instance,
    map: &DefectMap,
    loss: Option<u64>,
    cert: &Certificate,
    search: &FrontSearch<'_, R, L>,
) -> Result<Verdict, Memory>
    requires map { map.now ≡ instance.now.defects }
    requires tree { IsTree cert.now.nodes.items }
    requires version { IsVersionNumber cert.now.version }
    ensures { IfOk result (Answers instance.now
        (root_of (frame_of instance.now) 0).ranges loss cert.now) }
{
    if cert.loss != loss {
        return Ok(Verdict::Refuse {
            line: 1,
            why: Why::WrongLoss(cert.loss, loss),
        });
    }
    match walk(alloc, Ground { instance, map }, loss, cert)? {
        Walked::Fault(line, why) => Ok(Verdict::Refuse { line, why }),
        Walked::Whole(tally) => match judge_counts(cert, tally) {
            Some(why) => Ok(Verdict::Refuse { line: 1, why }),
            None => judge_floor(alloc, instance, cert, search),
        },
    }
}
