ghost use Rattle.std.specs.Prelude.{◌≡◌, ◌<◌, ◌≤◌, ℕ, length, slice_index, All, IfOk};
ghost use Rattle.graph_core.specs.Graphs.{IsJob};
ghost use Rattle.graph_core.specs.Fragments.{fragments_of, StandsAt};
ghost use Rattle.answer_text.specs.AnswerText.{kind_of, rows_of};
ghost use Rattle.answer_text.specs.Assembled.{FitParts, IsAssembled, ids_of, value_in};

use crate::answer::{Answer, AnswerRow, Kind};
use grape_port::NoMemory;
use graph_core::{Fragment, Graph, Job, Query};
use pie_core::Local;
use std::alloc::Global;

/// The answer of a job: a row for each vertex, in rising number, with the value that its owner has. It takes
/// memory for the rows alone, and goes over the vertices twice.
pub fn assemble(
    alloc: Global,
    job: &Job,
    fragments: &[Fragment],
    locals: &[Local],
) -> Result<Answer, NoMemory>
    requires job { IsJob job.now }
    requires fragments { fragments.now ≡ fragments_of job.now }
    requires locals { FitParts fragments.now locals.now }
    ensures { IfOk result (λ answer. IsAssembled job.now locals.now answer) }
{
    let mut rows = blank_rows(alloc, &job.graph)?;
    for (number, part) in fragments.iter().enumerate() {
        set_values(&mut rows, part.owned(), locals[number].values());
    }
    Ok(Answer {
        kind: kind_of(&job.query),
        rows,
    })
}

fn kind_of(query: &Query) -> Kind
    ensures { result ≡ kind_of query.now }
{
    match query {
        Query::Dist(_) => Kind::Dist,
        Query::Label => Kind::Label,
        Query::Reach(_) => Kind::Reach,
        Query::Sim(_) => Kind::Sim,
    }
}

/// A row for each vertex, in rising number, with the value 0.
fn blank_rows(alloc: Global, graph: &Graph) -> Result<Vec<AnswerRow>, NoMemory>
    ensures { IfOk result (λ rows. rows.items ≡ rows_of graph.now (λ v. 0)) }
{
    let count = graph.count();
    let mut rows = Vec::with_capacity(alloc, count as usize)?;
    for vertex in 0..count {
        rows.push(AnswerRow {
            id: graph.id(vertex),
            value: 0,
        })?;
    }
    Ok(rows)
}

/// Sets the values of the rows of these vertices, which differ.
fn set_values(rows: &mut [AnswerRow], owned: &[u32], values: &[u64])
    requires inside { All (λ v. v < length rows.old) owned.now }
    requires once { (p q v : ℕ) → StandsAt owned.now p v → StandsAt owned.now q v → p ≡ q }
    requires values { length owned.now ≤ length values.now }
    ensures ids { ids_of rows.new ≡ ids_of rows.old }
    ensures set { (p v : ℕ) → StandsAt owned.now p v → value_in rows.new v ≡ slice_index values.now p }
    ensures others { (v : ℕ) → ((p : ℕ) → StandsAt owned.now p v → ⊥) → value_in rows.new v ≡ value_in rows.old v }
{
    for (place, vertex) in owned.iter().enumerate() {
        rows[*vertex as usize].value = values[place];
    }
}
