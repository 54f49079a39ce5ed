ghost use Rattle.std.specs.Prelude.{◌≡◌, ◌<◌, All, IfOk, map};
ghost use Rattle.pie_sim.specs.SimJobs.{AreTargets};

use grape_port::NoMemory;
use graph_core::{PatternLink, PatternNode};
use std::alloc::Global;

/// How many nodes a pattern has at most.
const NODES: usize = 64;

/// For each node number the nodes to which its links lead, a bit a node.
pub fn targets_of(alloc: Global, links: &[PatternLink]) -> Result<Vec<u64>, NoMemory>
    requires { All (λ link. (link.from < 64) × (link.to < 64)) links.now }
    ensures { IfOk result (λ targets. AreTargets targets.items links.now) }
{
    let mut targets: Vec<u64> = vec![in alloc; 0; NODES]?;
    'links: for link in links {
        targets[link.from as usize] |= 1 << link.to;
    }
    Ok(targets)
}

/// The numbers of these nodes.
pub fn numbers_of(alloc: Global, nodes: &[PatternNode]) -> Result<Vec<u8>, NoMemory>
    ensures { IfOk result (λ numbers. numbers.items ≡ map (λ node. node.number) nodes.now) }
{
    let mut numbers = Vec::with_capacity(alloc, nodes.len())?;
    'nodes: for node in nodes {
        numbers.push(node.number)?;
    }
    Ok(numbers)
}
