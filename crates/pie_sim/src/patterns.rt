//! The pattern with the most nodes.

ghost use Rattle.std.specs.Prelude.{◌≡◌, ◌<◌, ◌≤◌, ◌^◌, length, All, IfOk};
ghost use Rattle.graph_core.specs.Graphs.{HaveDistinctNumbers};

use grape_port::NoMemory;
use graph_core::{PatternLink, PatternNode};
use std::alloc::Global;

/// The nodes from 0 to 63, all with the label 7.
pub fn all_nodes(alloc: Global) -> Result<Vec<PatternNode>, NoMemory>
    ensures fit { IfOk result (λ nodes. All (λ node. (node.number < 64) × (node.label < 2 ^ 32)) nodes.items) }
    ensures distinct { IfOk result (λ nodes. HaveDistinctNumbers nodes.items) }
{
    let mut nodes = Vec::new(alloc);
    'nodes: for number in 0..64 {
        nodes.push(PatternNode { number, label: 7 })?;
    }
    Ok(nodes)
}

/// A link from each node to the next one, from 0 up to before `end`. After 63 comes 0.
pub fn chain(alloc: Global, end: u8) -> Result<Vec<PatternLink>, NoMemory>
    requires { end ≤ 64 }
    ensures fit { IfOk result (λ links. All (λ link. (link.from < 64) × (link.to < 64)) links.items) }
    ensures few { IfOk result (λ links. length links.items ≡ end) }
{
    let mut links = Vec::new(alloc);
    'links: for from in 0..end {
        let to = (from + 1) % 64;
        links.push(PatternLink { from, to })?;
    }
    Ok(links)
}
