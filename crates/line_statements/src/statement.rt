use graph_core::{Cut, Edge, PatternLink, PatternNode, Policy};

/// What a query line asks for.
#[derive(Clone, Copy, Debug, PartialEq, Eq)]
pub enum Question {
    /// The distances from the vertex with this number.
    Distances(u32),
    /// The least number among the vertices that are joined to each vertex.
    Labels,
    /// Whether walks lead from the vertex with this number.
    Reaches(u32),
    /// What the largest simulation of the pattern relates to each vertex.
    Simulation,
}

/// What one line says, whatever the other lines are.
#[derive(Clone, Copy, Debug, PartialEq, Eq)]
pub enum Statement {
    /// Nothing: the line has no words, or is a comment.
    Nothing,
    /// An edge, by the numbers of its two vertices.
    Joins(Edge),
    /// A vertex, with its label.
    Vertex { number: u32, label: u32 },
    /// The query.
    Asks(Question),
    /// A node of the pattern.
    Node(PatternNode),
    /// A link of the pattern.
    Link(PatternLink),
    /// Into how many fragments the graph is cut, 1 to 64.
    Fragments(u32),
    /// How many threads serve them, 1 to 16.
    Lanes(u32),
    /// After how many Takes a snapshot is due; 0 asks for none.
    Snapshots(u32),
    /// How the graph is cut.
    Cuts(Cut),
    /// The policy: how far a fragment may run ahead of those that still have work.
    Follows(Policy),
}
