ghost use Rattle.std.specs.Prelude.{◌≡◌, ℕ, ◌+◌, List, [], ◌∷◌, ◌++◌, length, filter_map, Ok, None, Some, IsSome, option_map, OnOk, IfOk, IfErr};
ghost use Rattle.graph_core.specs.Graphs.{IsJob, MakeGraph, graph_of};
ghost use Rattle.line_statements.specs.declared.statement.Statement.{Statement as Said};
ghost use Rattle.graph_text.specs.Input.{bad, cause_among, statements_of, first_bad, cause_of, job_of_lines, vertices_of, settings_of, query_of, missing_source, missing_pattern, missing_for, edge_in};
ghost use Rattle.graph_text.specs.ReaderState.{gathered_state};
ghost use Rattle.graph_text.specs.Gathering.{Holds, AreGiven};
ghost use Rattle.graph_text.specs.Reader.{Answers, Gives};

use crate::fault::TextFault;
use crate::pattern_lines::{has_node, is_whole};
use graph_core::{
    Cut, Edge, Graph, Job, Pattern, PatternLink, PatternNode, Policy, Query, Settings,
};
use line_statements::{Question, Statement, Why};
use std::alloc::Global;
use text_lines::{NumberSet, with_labels};

/// The most edge lines.
const MAX_EDGES: usize = 4_000_000;

/// The most vertices.
const MAX_VERTICES: usize = 1_000_000;

/// The most link lines.
const MAX_LINKS: usize = 4_096;

/// The count of fragments where no line gives one.
const DEFAULT_FRAGMENTS: u32 = 4;

/// The count of lanes where no line gives one.
const DEFAULT_LANES: u32 = 2;

/// The policy where no line gives one.
const DEFAULT_POLICY: Policy = Policy::Aap { c: 4, l: 2 };

/// The Takes from one snapshot to the next where no line gives them: there are no snapshots.
const DEFAULT_SNAPSHOT: u32 = 0;

/// What the lines so far have said.
#[derive(Drop)]
pub(crate) struct Gathered {
    query: Option<Question>,
    fragments: Option<u32>,
    lanes: Option<u32>,
    cut: Option<Cut>,
    policy: Option<Policy>,
    snapshot: Option<u32>,
    /// In the order of their lines, by vertex numbers.
    edges: Vec<Edge>,
    /// In the order of their lines, each number once.
    nodes: Vec<PatternNode>,
    /// In the order of their lines.
    links: Vec<PatternLink>,
    /// The vertices: each number that stands in an edge or beside a label.
    numbers: NumberSet,
    /// The vertices with a line of their own and their labels, in the order of these lines.
    labels: Vec<(u32, u32)>,
    /// The numbers that stand in `labels`.
    labelled: NumberSet,
}

impl Gathered {
    /// Nothing was said.
    pub(crate) fn new(alloc: Global) -> Gathered
        ensures { Holds (gathered_state result) [] }
    {
        Gathered {
            query: None,
            fragments: None,
            lanes: None,
            cut: None,
            policy: None,
            snapshot: None,
            edges: Vec::new(alloc),
            nodes: Vec::new(alloc),
            links: Vec::new(alloc),
            numbers: NumberSet::new(alloc),
            labels: Vec::new(alloc),
            labelled: NumberSet::new(alloc),
        }
    }

    /// Takes what the line with this number says.
    pub(crate) fn take(&mut self, line: u64, statement: Statement) -> Result<(), TextFault>
        ensures answer { (ss : List Said) → Holds (gathered_state self.old) ss → Answers result (option_map (bad line) (cause_among ss (Ok statement))) }
        ensures ok { OnOk result ((ss : List Said) → Holds (gathered_state self.old) ss → Holds (gathered_state self.new) (ss ++ statement ∷ [])) }
    {
        match statement {
            Statement::Nothing => Ok(()),
            Statement::Joins(edge) => self.join(line, edge),
            Statement::Vertex { number, label } => self.label(line, number, label),
            Statement::Asks(question) => keep_once(&mut self.query, question, line),
            Statement::Node(node) => self.add_node(line, node),
            Statement::Link(link) => self.add_link(line, link),
            Statement::Fragments(count) => keep_once(&mut self.fragments, count, line),
            Statement::Lanes(count) => keep_once(&mut self.lanes, count, line),
            Statement::Snapshots(period) => keep_once(&mut self.snapshot, period, line),
            Statement::Cuts(cut) => keep_once(&mut self.cut, cut, line),
            Statement::Follows(policy) => keep_once(&mut self.policy, policy, line),
        }
    }

    /// Takes a vertex with its label. A second line of the vertex is bad, and so is one vertex too many.
    fn label(&mut self, line: u64, number: u32, label: u32) -> Result<(), TextFault>
        ensures answer { (ss : List Said) → Holds (gathered_state self.old) ss → Answers result (option_map (bad line) (cause_among ss (Ok (Statement.Vertex number label)))) }
        ensures ok { OnOk result ((ss : List Said) → Holds (gathered_state self.old) ss → Holds (gathered_state self.new) (ss ++ Statement.Vertex number label ∷ [])) }
    {
        let is_first = self.labelled.insert(number)?;
        if !is_first {
            let why = Why::Twice;
            return Err(TextFault::Bad { line, why });
        }
        self.numbers.insert(number)?;
        if self.numbers.len() > MAX_VERTICES {
            let why = Why::TooMany;
            return Err(TextFault::Bad { line, why });
        }
        self.labels.push((number, label))?;
        Ok(())
    }

    /// Takes an edge. One edge or one vertex too many is bad.
    fn join(&mut self, line: u64, edge: Edge) -> Result<(), TextFault>
        ensures answer { (ss : List Said) → Holds (gathered_state self.old) ss → Answers result (option_map (bad line) (cause_among ss (Ok (Statement.Joins edge)))) }
        ensures ok { OnOk result ((ss : List Said) → Holds (gathered_state self.old) ss → Holds (gathered_state self.new) (ss ++ Statement.Joins edge ∷ [])) }
    {
        let why = Why::TooMany;
        if self.edges.len() >= MAX_EDGES {
            return Err(TextFault::Bad { line, why });
        }
        self.numbers.insert(edge.to)?;
        self.numbers.insert(edge.from)?;
        if self.numbers.len() > MAX_VERTICES {
            return Err(TextFault::Bad { line, why });
        }
        self.edges.push(edge)?;
        Ok(())
    }

    /// Takes a node of the pattern. A second line of its number is bad.
    fn add_node(&mut self, line: u64, node: PatternNode) -> Result<(), TextFault>
        ensures answer { (ss : List Said) → Holds (gathered_state self.old) ss → Answers result (option_map (bad line) (cause_among ss (Ok (Statement.Node node)))) }
        ensures ok { OnOk result ((ss : List Said) → Holds (gathered_state self.old) ss → Holds (gathered_state self.new) (ss ++ Statement.Node node ∷ [])) }
    {
        if has_node(&self.nodes, node.number) {
            let why = Why::Twice;
            return Err(TextFault::Bad { line, why });
        }
        self.nodes.push(node)?;
        Ok(())
    }

    /// Takes a link of the pattern. One link too many is bad.
    fn add_link(&mut self, line: u64, link: PatternLink) -> Result<(), TextFault>
        ensures answer { (ss : List Said) → Holds (gathered_state self.old) ss → Answers result (option_map (bad line) (cause_among ss (Ok (Statement.Link link)))) }
        ensures ok { OnOk result ((ss : List Said) → Holds (gathered_state self.old) ss → Holds (gathered_state self.new) (ss ++ Statement.Link link ∷ [])) }
    {
        if self.links.len() >= MAX_LINKS {
            let why = Why::TooMany;
            return Err(TextFault::Bad { line, why });
        }
        self.links.push(link)?;
        Ok(())
    }

    /// The job that the lines make, if nothing is lacking. Else the line behind the last, which is `line`, is bad.
    pub(crate) fn into_job(self, line: u64) -> Result<Job, TextFault>
        requires { (lines : List (List ℕ)) × Holds (gathered_state self) (statements_of lines) × (first_bad cause_of [] lines ≡ None) }
        ensures answer { (lines : List (List ℕ)) → Holds (gathered_state self) (statements_of lines) → first_bad cause_of [] lines ≡ None → line ≡ length lines + 1 → Gives result (job_of_lines lines None) }
        ensures job { IfOk result IsJob }
    {
        let Some(question) = self.query else {
            let why = Why::NoQuery;
            return Err(TextFault::Bad { line, why });
        };
        if let Some(why) = self.missing_for(question) {
            return Err(TextFault::Bad { line, why });
        }
        let settings = self.settings();
        let Gathered {
            edges,
            nodes,
            links,
            numbers,
            labels,
            ..
        } = self;
        let graph = graph_from(edges, &numbers, &labels)?;
        let query = query_of(question, Pattern { nodes, links });
        Ok(Job {
            graph,
            query,
            settings,
        })
    }

    /// What the query needs and the lines lack.
    fn missing_for(&self, question: Question) -> Option<Why>
        ensures { (ss : List Said) → Holds (gathered_state self.now) ss → result ≡ missing_for ss question }
    {
        match question {
            Question::Labels => None,
            Question::Distances(source) | Question::Reaches(source) => self.missing_source(source),
            Question::Simulation => self.missing_pattern(),
        }
    }

    /// That the vertex with this number is lacking, where it is.
    fn missing_source(&self, source: u32) -> Option<Why>
        ensures { (ss : List Said) → Holds (gathered_state self.now) ss → result ≡ missing_source ss source }
    {
        if self.numbers.contains(source) {
            None
        } else {
            Some(Why::NoSource)
        }
    }

    /// That nodes and links make no pattern, where they don't.
    fn missing_pattern(&self) -> Option<Why>
        ensures { (ss : List Said) → Holds (gathered_state self.now) ss → result ≡ missing_pattern ss }
    {
        if is_whole(&self.nodes, &self.links) {
            None
        } else {
            Some(Why::NoPattern)
        }
    }

    /// The settings that the lines give, and what holds where a line is missing.
    fn settings(&self) -> Settings
        ensures { (ss : List Said) → Holds (gathered_state self.now) ss → result ≡ settings_of ss }
    {
        Settings {
            fragments: self.fragments.unwrap_or(DEFAULT_FRAGMENTS),
            lanes: self.lanes.unwrap_or(DEFAULT_LANES),
            cut: self.cut.unwrap_or(Cut::Hash),
            policy: self.policy.unwrap_or(DEFAULT_POLICY),
            snapshot: self.snapshot.unwrap_or(DEFAULT_SNAPSHOT),
        }
    }
}

/// The graph of these edges, whose vertices have these numbers, and some of them labels. The edges become the graph's.
fn graph_from(
    edges: Vec<Edge>,
    numbers: &NumberSet,
    labels: &[(u32, u32)],
) -> Result<Graph, TextFault>
    requires { (ss : List Said) × AreGiven ss edges.items numbers.now labels.now × MakeGraph (vertices_of ss) (filter_map edge_in ss) }
    ensures ok { IfOk result (λ graph. (ss : List Said) → AreGiven ss edges.items numbers.now labels.now → graph ≡ graph_of (vertices_of ss) (filter_map edge_in ss)) }
    ensures err { IfErr result (λ fault. fault ≡ TextFault.NoMemory) }
{
    let alloc = *edges.allocator();
    let sorted = numbers.sorted(alloc)?;
    let vertices = with_labels(alloc, &sorted, labels)?;
    let graph = Graph::from_lists(alloc, vertices, edges)?;
    Ok(graph)
}

/// Keeps what this line says, where no line said the like. Else the line is bad.
fn keep_once<T: Drop>(kept: &mut Option<T>, said: T, line: u64) -> Result<(), TextFault>
    ensures first { OnOk result ((kept.old ≡ None) × (kept.new ≡ Some said)) }
    ensures second { IfErr result (λ fault. (fault ≡ TextFault.Bad line Why.Twice) × IsSome kept.old) }
{
    if kept.is_some() {
        let why = Why::Twice;
        return Err(TextFault::Bad { line, why });
    }
    *kept = Some(said);
    Ok(())
}

/// The query that a question asks, of this pattern where it is a simulation.
fn query_of(question: Question, pattern: Pattern) -> Query
    ensures { result ≡ query_of pattern question }
{
    match question {
        Question::Distances(source) => Query::Dist(source),
        Question::Labels => Query::Label,
        Question::Reaches(source) => Query::Reach(source),
        Question::Simulation => Query::Sim(pattern),
    }
}
