ghost use Rattle.std.specs.Prelude.{◌≡◌, map, length, IfOk};
ghost use Rattle.graph_core.specs.Graphs.{count_of, IsJob};
ghost use Rattle.graph_core.specs.Fragments.{numbers_below, fragments_of};
ghost use Rattle.fragment_cut.specs.Cut.{EachEquationOnce};
ghost use Rattle.fragment_cut.specs.Filing.{reads_table, readers_table};
ghost use Rattle.fragment_cut.specs.Halves.{half_of};
ghost use Rattle.fragment_cut.specs.Owners.{owners_of};
ghost use Rattle.fragment_cut.specs.Routing.{routes_table};

use crate::half::Half;
use crate::owner::owner_of;
use crate::reads::{readers_table, reads_table};
use crate::routing::{routes_by, routes_table};
use grape_port::NoMemory;
use graph_core::{Fragment, Job, Reading, Rows};
use std::alloc::Global;

/// The fragment that owns each vertex, by index.
fn owners(alloc: Global, job: &Job) -> Result<Vec<u32>, NoMemory>
    requires { IsJob job.now }
    ensures { IfOk result (λ owners. owners.items ≡ owners_of job.now) }
{
    let count = job.graph.count();
    let mut owners = Vec::with_capacity(alloc, count as usize)?;
    for vertex in 0..count {
        let id = job.graph.id(vertex);
        owners.push(owner_of(&job.settings, id, vertex, count))?;
    }
    Ok(owners)
}

/// The only fragment, but for its routes.
fn only_half(alloc: Global, job: &Job) -> Result<Vec<Half>, NoMemory>
    requires job { IsJob job.now }
    requires fragments { job.now.settings.fragments ≡ 1 }
    ensures { IfOk result (λ halves. halves.items ≡ map (half_of job.now) (numbers_below job.now.settings.fragments)) }
{
    let reads = reads_table(alloc, job)?;
    let readers = readers_table(alloc, job, &reads)?;
    let half = Half::only(alloc, job, reads, readers)?;
    let mut halves = Vec::new(alloc);
    halves.push(half)?;
    Ok(halves)
}

/// The fragments of which there are several, but for their routes.
fn several_halves(alloc: Global, job: &Job) -> Result<Vec<Half>, NoMemory>
    requires { IsJob job.now }
    ensures { IfOk result (λ halves. halves.items ≡ map (half_of job.now) (numbers_below job.now.settings.fragments)) }
{
    let owners = owners(alloc, job)?;
    let reads = reads_table(alloc, job)?;
    let mut places = vec![in alloc; 0u32; job.graph.count() as usize]?;
    let mut halves = Vec::new(alloc);
    for fragment in 0..job.settings.fragments {
        let half = Half::build(alloc, job, &owners, &reads, &mut places, fragment)?;
        halves.push(half)?;
    }
    Ok(halves)
}

/// The fragments, but for their routes.
fn halves(alloc: Global, job: &Job) -> Result<Vec<Half>, NoMemory>
    requires { IsJob job.now }
    ensures { IfOk result (λ halves. halves.items ≡ map (half_of job.now) (numbers_below job.now.settings.fragments)) }
{
    if job.settings.fragments == 1 {
        only_half(alloc, job)
    } else {
        several_halves(alloc, job)
    }
}

/// The fragments of their halves.
fn joined(
    alloc: Global,
    job: &Job,
    halves: Vec<Half>,
    routes: &Rows<Reading>,
) -> Result<Vec<Fragment>, NoMemory>
    requires job { IsJob job.now }
    requires halves { halves.items ≡ map (half_of job.now) (numbers_below job.now.settings.fragments) }
    requires routes { routes.now ≡ routes_table job.now }
    ensures { IfOk result (λ fragments. fragments.items ≡ fragments_of job.now) }
{
    let mut fragments = Vec::with_capacity(alloc, halves.len())?;
    let mut number = 0u32;
    for half in halves {
        let own = routes_by(alloc, half.owned(), routes)?;
        fragments.push(half.with_routes(number, own))?;
        number += 1;
    }
    Ok(fragments)
}

/// The fragments of a job, as many as its settings say, by number. Each vertex is owned by one of them,
/// at one place, and its readings there are what its equation reads.
///
/// It takes passes over the edges and the mirrors, two passes over the vertices a fragment, and no sort. Tables are dense,
/// so that no vertex or edge has memory of its own.
/// Where memory runs out, nothing is left.
pub fn fragment(alloc: Global, job: &Job) -> Result<Vec<Fragment>, NoMemory>
    requires { IsJob job.now }
    ensures made { IfOk result (λ fragments. fragments.items ≡ fragments_of job.now) }
    ensures once { IfOk result (λ fragments. EachEquationOnce job.now fragments.items) }
{
    let halves = halves(alloc, job)?;
    let routes = routes_table(alloc, job, &halves)?;
    joined(alloc, job, halves, &routes)
}
