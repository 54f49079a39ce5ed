ghost use Rattle.std.specs.Prelude.{◌≡◌, ◌<◌, All, IfOk};
ghost use Rattle.graph_core.specs.Graphs.{count_of, IsJob};
ghost use Rattle.graph_core.specs.Queries.{equations_of};
ghost use Rattle.pie_core.specs.Solutions.{starts_of};

use grape_port::NoMemory;
use graph_core::Job;
use std::alloc::Global;

/// The start value of each vertex, in order. The vertices are named by their indexes in the job's graph. An error comes
/// where memory runs out.
pub fn starts_of(alloc: Global, job: &Job, vertices: &[u32]) -> Result<Vec<u64>, NoMemory>
    requires job { IsJob job.now }
    requires vertices { All (λ vertex. vertex < count_of job.now.graph) vertices.now }
    ensures { IfOk result (λ starts. starts.items ≡ starts_of (equations_of job.now) vertices.now) }
{
    let mut starts = Vec::with_capacity(alloc, vertices.len())?;
    'vertices: for vertex in vertices {
        starts.push(job.start_of(*vertex))?;
    }
    Ok(starts)
}
