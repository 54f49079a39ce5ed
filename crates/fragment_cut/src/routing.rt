ghost use Rattle.std.specs.Prelude.{◌≡◌, ◌<◌, ◌^◌, map, length, IfOk, OnOk, All};
ghost use Rattle.graph_core.specs.Graphs.{IsJob};
ghost use Rattle.graph_core.specs.Fragments.{numbers_below};
ghost use Rattle.fragment_cut.specs.Halves.{half_of};
ghost use Rattle.fragment_cut.specs.Routing.{mirror_row, mirror_rows, route_of, routes_table, routes_in};

use crate::counting::turned_table;
use crate::half::Half;
use grape_port::NoMemory;
use graph_core::{Job, Reading, Route, Rows};
use std::alloc::Global;

/// Puts mirrors, as readings of a vertex and a mirror number, in place of what the row holds.
fn read_mirrors(mirrors: &[u32], row: &mut Vec<Reading>) -> Result<(), NoMemory>
    requires { length mirrors.now < 2 ^ 32 }
    ensures { OnOk result (row.new.items ≡ mirror_row mirrors.now) }
{
    row.clear();
    for mirror in 0..mirrors.len() as u32 {
        row.push(Reading {
            place: mirrors[mirror as usize],
            weight: mirror,
        })?;
    }
    Ok(())
}

/// A row a fragment: its mirrors, as readings of a vertex and a mirror number.
fn mirror_rows(alloc: Global, job: &Job, halves: &[Half]) -> Result<Rows<Reading>, NoMemory>
    requires job { IsJob job.now }
    requires halves { halves.now ≡ map (half_of job.now) (numbers_below job.now.settings.fragments) }
    ensures { IfOk result (λ rows. rows ≡ mirror_rows job.now) }
{
    let mut rows = Rows::with_capacity(alloc, halves.len(), 0)?;
    let mut row = Vec::new(alloc);
    for fragment in 0..job.settings.fragments {
        let half = &halves[fragment as usize];
        read_mirrors(half.mirrors(), &mut row)?;
        rows.push_row(&row)?;
    }
    Ok(rows)
}

/// For each vertex its mirrors, as readings of a fragment's number and a mirror number, in order of the fragments.
/// It takes two passes over the mirrors.
pub fn routes_table(alloc: Global, job: &Job, halves: &[Half]) -> Result<Rows<Reading>, NoMemory>
    requires job { IsJob job.now }
    requires halves { halves.now ≡ map (half_of job.now) (numbers_below job.now.settings.fragments) }
    ensures { IfOk result (λ routes. routes ≡ routes_table job.now) }
{
    let rows = mirror_rows(alloc, job, halves)?;
    turned_table(alloc, &rows, job.graph.count())
}

/// Puts these readings as routes in place of what the row holds.
fn read_routes(readings: &[Reading], row: &mut Vec<Route>) -> Result<(), NoMemory>
    ensures { OnOk result (row.new.items ≡ map route_of readings.now) }
{
    row.clear();
    for reading in readings {
        row.push(Route {
            fragment: reading.place,
            mirror: reading.weight,
        })?;
    }
    Ok(())
}

/// The routes of these vertices.
pub fn routes_by(
    alloc: Global,
    vertices: &[u32],
    table: &Rows<Reading>,
) -> Result<Rows<Route>, NoMemory>
    requires { All (λ v. v < length table.now) vertices.now }
    ensures { IfOk result (λ routes. routes ≡ map (routes_in table.now) vertices.now) }
{
    let mut routes = Rows::with_capacity(alloc, vertices.len(), 0)?;
    let mut row = Vec::new(alloc);
    for vertex in vertices {
        read_routes(table.row(*vertex as usize), &mut row)?;
        routes.push_row(&row)?;
    }
    Ok(routes)
}
