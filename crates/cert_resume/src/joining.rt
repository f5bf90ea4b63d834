//! A certificate with a tree in the place of each open node.

ghost use Rattle.std.specs.Prelude.{◌≡◌, ◌+◌, ◌<◌, ◌≤◌, ◌^◌, ◌∷◌, ◌++◌, List, All, IfOk, count_by, fold, length, map, max, option_map, sum_by};
ghost use Rattle.cert_log.specs.declared.certificate.Certificate.{Certificate as CertificateOf};
ghost use Rattle.cert_log.specs.declared.certificate.Node.{Node as NodeOf};
ghost use Rattle.cert_log.specs.Good.{HasVersion, IsVersionFor, lesser, version_for};
ghost use Rattle.cert_log.specs.Outcomes.{IsHead};
ghost use Rattle.cert_log.specs.Texts.{head_of};
ghost use Rattle.cert_log.specs.Trees.{is_left};
ghost use Rattle.cert_log.specs.Values.{IsNumber};
ghost use Rattle.cert_resume.specs.Joins.{IsJoined, KeepsRight, bounds_of, filled, lesser_of, nodes_in};

use cert_log::{Certificate, Node};
use glass_base::{Memory, Run, append};
use std::alloc::Global;

/// The lesser of a loss and a bound; what is none is greater than every number.
fn with_bound(loss: Option<u64>, bound: Option<u64>) -> Option<u64>
    ensures { result ≡ lesser_of loss bound }
{
    match (loss, bound) {
        (Some(loss), Some(bound)) => Some(loss.min(bound)),
        (None, bound) => bound,
        (loss, None) => loss,
    }
}

/// A bound, raised to a floor.
fn raise(floor: u64, bound: Option<u64>) -> Option<u64>
    ensures { result ≡ option_map (max floor) bound }
{
    match bound {
        Some(bound) => Some(floor.max(bound)),
        None => None,
    }
}

/// The least of a loss and the bounds of some certificates, each raised to a floor.
fn least_bound(floor: u64, loss: Option<u64>, parts: &[Certificate]) -> Option<u64>
    ensures { result ≡ fold lesser_of loss (map (option_map (max floor)) (bounds_of parts.now)) }
{
    let mut least = loss;
    for part in parts {
        least = with_bound(least, raise(floor, part.bound));
    }
    least
}

/// How many boxes some certificates leave open together.
fn all_left(parts: &[Certificate]) -> u64
    requires { sum_by (λ (p : CertificateOf). p.left) parts.now < 2 ^ 64 }
    ensures { result ≡ sum_by (λ (p : CertificateOf). p.left) parts.now }
{
    let mut left = 0;
    for part in parts {
        left += part.left;
    }
    left
}

/// How many nodes to take memory for.
fn expected_nodes(nodes: &[Node], parts: &[Certificate]) -> usize {
    let mut expected = nodes.len();
    for part in parts {
        expected = expected.saturating_add(part.nodes.len());
    }
    expected
}

/// Appends a node, or the nodes of the first of these parts in the place of an open one. The parts that are still to come are given back.
fn fill<'a>(
    nodes: &mut Run<Node>,
    node: Node,
    parts: &'a [Certificate],
) -> Result<&'a [Certificate], Memory>
    ensures { IfOk result (λ rest. (later : List NodeOf)
        → nodes.new.items ++ filled later (nodes_in rest.now)
        ≡ nodes.old.items ++ filled (node ∷ later) (nodes_in parts.now)) }
{
    match node {
        Node::Left => match parts.split_first() {
            Some((part, rest)) => {
                nodes.extend_from_slice(part.nodes.as_slice())?;
                Ok(rest)
            }
            None => {
                append(nodes, Node::Left)?;
                Ok(parts)
            }
        },
        Node::Split { .. } | Node::Closed(_) => {
            append(nodes, node)?;
            Ok(parts)
        }
    }
}

/// These nodes, with the nodes of a part in the place of each open one.
fn fill_all(alloc: Global, nodes: &[Node], parts: &[Certificate]) -> Result<Run<Node>, Memory>
    ensures { IfOk result (λ run. run.items ≡ filled nodes.now (nodes_in parts.now)) }
{
    let mut joined = Run::new(alloc);
    joined.reserve(expected_nodes(nodes, parts))?;
    let mut rest = parts;
    for node in nodes {
        rest = fill(&mut joined, *node, rest)?;
    }
    Ok(joined)
}

/// The version of a certificate of this one that is given this floor.
fn version_with(version: u32, floor: u64) -> u32
    ensures { result ≡ max version (version_for floor) }
{
    if floor == 0 {
        version.max(2)
    } else {
        version.max(3)
    }
}

/// The certificate with the tree of a part in the place of each open node, in their order, for this loss, and with the floor that the parts have, which is no less than its own.
///
/// Where the certificate is right for a box and a loss that is no less, each part is right for its open box and this loss, and no lawful plan loses less than the floor, what comes
/// is right for the box and this loss. Its version is kept, or is that of a certificate with the floor. Only want of memory is refused. It takes time and memory linear in the nodes.
pub fn join(
    alloc: Global,
    cert: &Certificate,
    parts: Run<Certificate>,
    floor: u64,
    loss: Option<u64>,
) -> Result<Certificate, Memory>
    requires version { HasVersion cert.now }
    requires later { 2 ≤ cert.now.version }
    requires floor { cert.now.floor ≤ floor }
    requires versions { All (IsVersionFor floor) parts.items }
    requires parts { length parts.items ≡ count_by is_left cert.now.nodes.items }
    requires left { sum_by (λ (p : CertificateOf). p.left) parts.items < 2 ^ 64 }
    ensures joined { IfOk result (IsJoined cert.now parts.items floor loss) }
    ensures right { IfOk result (KeepsRight cert.now parts.items loss) }
    ensures nodes { IfOk result (λ j. length j.nodes.items + length parts.items
        ≡ length cert.now.nodes.items + sum_by
        (λ (p : CertificateOf). length p.nodes.items) parts.items) }
    ensures head { IfOk result (λ j. IsHead (head_of j)) }
    ensures number { IfOk result (λ j. IsNumber (length j.nodes.items)) }
{
    let nodes = fill_all(alloc, cert.nodes.as_slice(), parts.as_slice())?;
    let _count = nodes.len();
    Ok(Certificate {
        version: version_with(cert.version, floor),
        loss,
        bound: least_bound(floor, loss, parts.as_slice()),
        left: all_left(parts.as_slice()),
        floor,
        nodes,
    })
}
