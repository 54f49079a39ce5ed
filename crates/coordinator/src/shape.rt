ghost use Rattle.std.specs.Prelude.{◌≡◌, ◌<◌, All, IfOk};
ghost use Rattle.graph_core.specs.Graphs.{count_of, IsJob};
ghost use Rattle.graph_core.specs.Queries.{order_of};
ghost use Rattle.graph_core.specs.Fragments.{fragments_of};
ghost use Rattle.token_cut.specs.Shapes.{IsShape};
ghost use Rattle.coordinator.specs.Shapes.{starts_in, shape_of};

use grape_port::NoMemory;
use graph_core::{Fragment, Job, Query};
use pie_core::starts_of;
use std::alloc::Global;
use token_cut::{Shape, ShapePart};
use value_order::Order;

/// What the snapshots of a job have in common: the order of its query, and the start values of all places of its
/// fragments. The fragments are the job's, so there are at most 64 parts, with at most 1,000,000 owned vertices and
/// 1,000,000 mirrors each. Where memory runs out, nothing is left.
pub fn shape_of(alloc: Global, job: &Job, fragments: &[Fragment]) -> Result<Shape, NoMemory>
    requires job { IsJob job.now }
    requires fragments { fragments.now ≡ fragments_of job.now }
    ensures shape { IfOk result (λ shape. shape ≡ shape_of job.now) }
    ensures limits { IfOk result (λ shape. IsShape shape) }
{
    let mut parts = Vec::with_capacity(alloc, fragments.len())?;
    'parts: for part in fragments {
        parts.push(starts_in(alloc, job, part)?)?;
    }
    let order = order_of(&job.query);
    Ok(Shape { order, parts })
}

/// How the values of a query are compared.
fn order_of(query: &Query) -> Order
    ensures { result ≡ order_of query.now }
{
    match query {
        Query::Dist(_) | Query::Label | Query::Reach(_) => Order::Least,
        Query::Sim(_) => Order::Mask,
    }
}

/// The start values of a fragment's places.
fn starts_in(alloc: Global, job: &Job, part: &Fragment) -> Result<ShapePart, NoMemory>
    requires job { IsJob job.now }
    requires owned { All (λ vertex. vertex < count_of job.now.graph) part.now.owned }
    requires mirrors { All (λ vertex. vertex < count_of job.now.graph) part.now.mirrors }
    ensures { IfOk result (λ starts. starts ≡ starts_in job.now part.now) }
{
    let owned = starts_of(alloc, job, part.owned())?;
    let mirrors = starts_of(alloc, job, part.mirrors())?;
    Ok(ShapePart { owned, mirrors })
}
