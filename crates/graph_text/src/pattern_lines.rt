ghost use Rattle.std.specs.Prelude.{◌≡◌};
ghost use Rattle.std.specs.List.{list_all};
ghost use Rattle.graph_text.specs.Input.{has_node, joins_nodes, is_whole};

use graph_core::{PatternLink, PatternNode};

/// Whether there is a node, and each link joins two.
pub(crate) fn is_whole(nodes: &[PatternNode], links: &[PatternLink]) -> bool
    ensures { result ≡ is_whole (record { nodes = nodes.now; links = links.now }) }
{
    !nodes.is_empty() && all_join(nodes, links)
}

/// Whether each link joins two nodes.
fn all_join(nodes: &[PatternNode], links: &[PatternLink]) -> bool
    ensures { result ≡ list_all (joins_nodes nodes.now) links.now }
{
    links.iter().all(|link| joins_nodes(nodes, link))
}

/// Whether both ends of a link are nodes.
fn joins_nodes(nodes: &[PatternNode], link: &PatternLink) -> bool
    ensures { result ≡ joins_nodes nodes.now link.now }
{
    has_node(nodes, link.from) && has_node(nodes, link.to)
}

/// Whether one of the nodes has this number.
pub(crate) fn has_node(nodes: &[PatternNode], number: u8) -> bool
    ensures { result ≡ has_node nodes.now number }
{
    nodes.iter().any(|node| node.number == number)
}
