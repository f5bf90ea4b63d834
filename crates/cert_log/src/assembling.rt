//! Certificates are put together from a history, whose notes may come in any order: one walk over the tree of each start box.

ghost use Rattle.std.specs.Prelude.{◌≡◌, ◌+◌, ◌*◌, ◌<◌, length, sum_by, count_by, All, IfSome, IfOk, OnOk};
ghost use Rattle.cert_log.specs.Good.{lesser, version_for as version_of, AreGood, IsVersionFor};
ghost use Rattle.cert_log.specs.inner.Growth.{AreDifferent, IsMade, IsRooted};
ghost use Rattle.cert_log.specs.Lawful.{Course, HasCourse, IsLawful, ids_of, loss_of};
ghost use Rattle.cert_log.specs.inner.Places.{IsIndexed};
ghost use Rattle.cert_log.specs.Outcomes.{IsHead};
ghost use Rattle.cert_log.specs.Splits.{AreSearched};
ghost use Rattle.cert_log.specs.Texts.{head_of};
ghost use Rattle.cert_log.specs.Trees.{is_left};
ghost use Rattle.cert_log.specs.inner.Writing.{IsNext, Writes};

use crate::certificate::{Certificate, Node};
use crate::history::{Act, History, NO_LOSS};
use crate::places::{Fate, entry_of, places};
use glass_base::{Instance, Memory, Run, append};
use std::alloc::Global;

/// The loss of the best plan that is known, in mm².
pub fn best_loss(history: &History) -> Option<u64>
    ensures { result ≡ loss_of history.now.best }
{
    if history.best < NO_LOSS {
        Some(history.best)
    } else {
        None
    }
}

/// The lesser of a loss and a bound, in mm²; the bound where there is no loss.
pub fn with_bound(loss: Option<u64>, bound: u64) -> Option<u64>
    ensures { result ≡ lesser loss bound }
{
    match loss {
        Some(loss) => Some(loss.min(bound)),
        None => Some(bound),
    }
}

/// The number of open nodes.
fn count_left(nodes: &[Node]) -> u64
    ensures { result ≡ count_by is_left nodes.now }
{
    nodes
        .iter()
        .filter(|node| matches!(node, Node::Left))
        .count() as u64
}

/// A certificate that is being written.
#[derive(Drop)]
pub(crate) struct CertGrowth {
    /// The identities whose trees are still to come, the next one last.
    waiting: Run<u64>,
    nodes: Run<Node>,
    /// The least of the loss and of the bounds of the open nodes, each raised to the floor.
    bound: Option<u64>,
}

/// Writes the node of the box of this identity. The boxes made of it wait then, the lower half as the next one.
fn write_node(
    history: &History,
    places: &[usize],
    growth: &mut CertGrowth,
    next: u64,
) -> Result<(), Memory>
    requires index { IsIndexed (ids_of history.now) (length (ids_of history.now)) places.now }
    requires within { All (λ id. id < length places.now) (ids_of history.now) }
    requires different { AreDifferent history.now }
    requires next { IsNext history.now next growth.old }
    ensures { OnOk result (Writes history.now next growth.old growth.new) }
{
    match entry_of(history, places, next) {
        Fate::Noted(note) => match note.act {
            Act::Split { step, var } => {
                let lower = history.starts + 2 * note.ticket;
                append(&mut growth.waiting, lower + 1)?;
                append(&mut growth.waiting, lower)?;
                append(&mut growth.nodes, Node::Split { step, var })
            }
            Act::Closed { cause, .. } => append(&mut growth.nodes, Node::Closed(cause)),
        },
        Fate::Open(kept) => {
            growth.bound = with_bound(growth.bound, history.floor.max(kept));
            append(&mut growth.nodes, Node::Left)
        }
    }
}

/// The version of a certificate with this floor, where each closed node has its cause: a floor is said in version 3.
fn version_for(floor: u64) -> u32
    ensures { result ≡ version_of floor }
{
    if floor == 0 { 2 } else { 3 }
}

/// The certificate of these nodes.
fn with_nodes(loss: Option<u64>, bound: Option<u64>, floor: u64, nodes: Run<Node>) -> Certificate
    ensures made { result ≡ record {
      version = version_of floor;
      loss = loss;
      bound = bound;
      left =
          count_by is_left nodes.items;
      floor = floor;
      nodes = nodes;
    } }
    ensures head { IsHead (head_of result) }
{
    let left = count_left(nodes.as_slice());
    Certificate {
        version: version_for(floor),
        loss,
        bound,
        left,
        floor,
        nodes,
    }
}

/// How many nodes to take memory for: that of all nodes where they stand in one certificate, and none where they are shared out.
fn expected_nodes(history: &History) -> usize {
    if history.starts == 1 {
        history.log.len().saturating_add(history.left.len())
    } else {
        0
    }
}

/// The certificate of the box of this identity.
fn certificate_of(
    alloc: Global,
    history: &History,
    places: &[usize],
    id: u64,
) -> Result<Certificate, Memory>
    requires index { IsIndexed (ids_of history.now) (length (ids_of history.now)) places.now }
    requires within { All (λ id. id < length places.now) (ids_of history.now) }
    requires different { AreDifferent history.now }
    requires rooted { IsRooted history.now id }
    ensures made { IfOk result (IsMade history.now id) }
    ensures head { IfOk result (λ c. IsHead (head_of c)) }
{
    let loss = best_loss(history);
    let mut growth = CertGrowth {
        waiting: Run::new(alloc),
        nodes: Run::new(alloc),
        bound: loss,
    };
    growth.nodes.reserve(expected_nodes(history))?;
    append(&mut growth.waiting, id)?;
    while let Some(next) = growth.waiting.pop() {
        write_node(history, places, &mut growth, next)?;
    }
    Ok(with_nodes(loss, growth.bound, history.floor, growth.nodes))
}

/// The number of identities that the start boxes and the halves of the noted boxes can have, or none where it is too large.
fn identities(history: &History) -> Option<usize>
    ensures { IfSome result (λ n. n ≡ history.now.starts + 2 * length history.now.log.items) }
{
    let notes = history.log.len();
    (history.starts as usize)
        .checked_add(notes)?
        .checked_add(notes)
}

/// The certificates of the start boxes, in their order: of version 2, or of version 3 where there is a floor. Together they have one node for each note and each left box. The
/// numbers of each fit in 64 bits, so that its text can be read again.
pub fn assemble(
    alloc: Global,
    instance: &Instance,
    history: &History,
) -> Result<Run<Certificate>, Memory>
    requires { HasCourse instance.now history.now }
    ensures good { IfOk result (λ cs. (s : Course) → IsLawful instance.now s history.now
        → AreGood instance.now (loss_of history.now.best) s.boxes cs.items) }
    ensures searched { IfOk result (λ cs. (s : Course) → IsLawful instance.now s history.now
        → AreSearched instance.now s.first s.boxes cs.items) }
    ensures nodes { IfOk result (λ cs. sum_by (λ c. length c.nodes.items) cs.items
        ≡ length history.now.log.items + length history.now.left.items) }
    ensures left { IfOk result (λ cs. sum_by (λ c. c.left) cs.items
        ≡ length history.now.left.items) }
    ensures version { IfOk result (λ cs. All (IsVersionFor history.now.floor) cs.items) }
    ensures heads { IfOk result (λ cs. All (λ c. IsHead (head_of c)) cs.items) }
{
    let room = identities(history).ok_or(Memory)?;
    let places = places(alloc, history, room)?;
    let mut certificates = Run::new(alloc);
    for start in 0..history.starts {
        let certificate = certificate_of(alloc, history, places.as_slice(), start)?;
        append(&mut certificates, certificate)?;
    }
    Ok(certificates)
}
