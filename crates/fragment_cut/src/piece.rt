ghost use Rattle.std.specs.Prelude.{◌≡◌, ◌<◌, ◌≤◌, ◌^◌, ◌+◌, ◌++◌, ◌==◌, ℕ, [], ◌∷◌, if◌then◌else◌, map, filter, length, IfOk, OnOk, All, slice_index, slice_index_or, false, vec_len};
ghost use Rattle.std.specs.List.{list_any};
ghost use Rattle.graph_core.specs.Graphs.{count_of, IsGraph};
ghost use Rattle.graph_core.specs.Fragments.{owned_of, mirrors_of, is_read_in, StandsAt};
ghost use Rattle.fragment_cut.specs.Filing.{filed_rows, placed_reading, is_owned_in, is_mirrored_in, placed_row, placed_rows};
ghost use Rattle.fragment_cut.specs.Owners.{owners_of, StandsNowhere, StandOnce};

use grape_port::NoMemory;
use graph_core::{Job, Reading, Rows};
use std::alloc::Global;

/// The vertices that a fragment owns, by rising index.
pub fn owned_by(
    alloc: Global,
    job: &Job,
    owners: &[u32],
    fragment: u32,
) -> Result<Vec<u32>, NoMemory>
    requires { owners.now ≡ owners_of job.now }
    ensures { IfOk result (λ owned. owned.items ≡ owned_of job.now fragment) }
{
    let mut owned = Vec::new(alloc);
    for vertex in 0..job.graph.count() {
        if owners[vertex as usize] == fragment {
            owned.push(vertex)?;
        }
    }
    Ok(owned)
}

/// For each vertex below `count`, whether one of these vertices reads it.
pub fn marks_of(
    alloc: Global,
    vertices: &[u32],
    reads: &Rows<Reading>,
    count: u32,
) -> Result<Vec<bool>, NoMemory>
    requires inside { All (λ v. v < length reads.now) vertices.now }
    requires read { All (λ row. All (λ r. r.place < count) row) reads.now }
    ensures len { IfOk result (λ marks. length marks.items ≡ count) }
    ensures marks { IfOk result (λ marks. (v : ℕ) → v < count → slice_index_or marks.items v false ≡ list_any (λ entry. entry.place == v) (filed_rows vertices.now reads.now (length vertices.now))) }
{
    let mut marks = vec![in alloc; false; count as usize]?;
    'vertices: for vertex in vertices {
        let readings = reads.row(*vertex as usize);
        'row: for reading in readings {
            marks[reading.place as usize] = true;
        }
    }
    Ok(marks)
}

/// The marked vertices that a fragment does not own, by rising index: its mirrors.
pub fn mirrors_by(
    alloc: Global,
    job: &Job,
    owners: &[u32],
    fragment: u32,
    marks: &[bool],
) -> Result<Vec<u32>, NoMemory>
    requires owners { owners.now ≡ owners_of job.now }
    requires len { length marks.now ≡ count_of job.now.graph }
    requires marks { (v : ℕ) → v < count_of job.now.graph → slice_index_or marks.now v false ≡ is_read_in job.now fragment v }
    ensures { IfOk result (λ mirrors. mirrors.items ≡ mirrors_of job.now fragment) }
{
    let mut mirrors = Vec::new(alloc);
    for vertex in 0..job.graph.count() {
        if owners[vertex as usize] != fragment && marks[vertex as usize] {
            mirrors.push(vertex)?;
        }
    }
    Ok(mirrors)
}

/// Numbers these vertices from `first` on.
pub fn number_places(vertices: &[u32], first: u32, places: &mut [u32])
    requires few { first + length vertices.now < 2 ^ 32 }
    requires inside { All (λ v. v < length places.old) vertices.now }
    requires once { StandOnce vertices.now }
    ensures numbered { (k v : ℕ) → StandsAt vertices.now k v → slice_index places.new v ≡ first + k }
    ensures others { (v : ℕ) → StandsNowhere vertices.now v → slice_index places.new v ≡ slice_index places.old v }
{
    for (k, vertex) in vertices.iter().enumerate() {
        places[*vertex as usize] = first + k as u32;
    }
}

/// Adds a reading where it is wanted.
fn push_if(wanted: bool, reading: Reading, made: &mut Vec<Reading>) -> Result<(), NoMemory>
    ensures { OnOk result (made.new.items ≡ made.old.items ++ (if wanted then reading ∷ [] else [])) }
{
    if wanted {
        made.push(reading)?;
    }
    Ok(())
}

/// Adds what a row reads of owned places, the first `owned`.
fn place_owned(
    row: &[Reading],
    places: &[u32],
    owned: u32,
    made: &mut Vec<Reading>,
) -> Result<(), NoMemory>
    requires { All (λ r. r.place < length places.now) row.now }
    ensures { OnOk result (made.new.items ≡ made.old.items ++ map (placed_reading places.now) (filter (is_owned_in places.now owned) row.now)) }
{
    for reading in row {
        let place = places[reading.place as usize];
        let weight = reading.weight;
        push_if(place < owned, Reading { place, weight }, made)?;
    }
    Ok(())
}

/// Adds what a row reads of mirrors, whose places follow the owned ones.
fn place_mirrored(
    row: &[Reading],
    places: &[u32],
    owned: u32,
    made: &mut Vec<Reading>,
) -> Result<(), NoMemory>
    requires { All (λ r. r.place < length places.now) row.now }
    ensures { OnOk result (made.new.items ≡ made.old.items ++ map (placed_reading places.now) (filter (is_mirrored_in places.now owned) row.now)) }
{
    for reading in row {
        let place = places[reading.place as usize];
        let weight = reading.weight;
        push_if(!(place < owned), Reading { place, weight }, made)?;
    }
    Ok(())
}

/// Puts what a row reads, with places for vertices and in their order, in place of what `made` holds.
fn place_row(
    row: &[Reading],
    places: &[u32],
    owned: u32,
    made: &mut Vec<Reading>,
) -> Result<(), NoMemory>
    requires { All (λ r. r.place < length places.now) row.now }
    ensures { OnOk result (made.new.items ≡ placed_row places.now owned row.now) }
{
    made.clear();
    place_owned(row, places, owned, made)?;
    place_mirrored(row, places, owned, made)?;
    Ok(())
}

/// What these vertices read, with places for vertices. The vertices themselves have the first places.
pub fn placed_rows(
    alloc: Global,
    vertices: &[u32],
    reads: &Rows<Reading>,
    places: &[u32],
) -> Result<Rows<Reading>, NoMemory>
    requires few { length vertices.now < 2 ^ 32 }
    requires inside { All (λ v. v < length reads.now) vertices.now }
    requires read { All (λ row. All (λ r. r.place < length places.now) row) reads.now }
    ensures { IfOk result (λ made. made ≡ placed_rows vertices.now places.now reads.now) }
{
    let owned = vertices.len() as u32;
    let mut made = Rows::with_capacity(alloc, vertices.len(), 0)?;
    let mut row = Vec::new(alloc);
    for vertex in vertices {
        place_row(reads.row(*vertex as usize), places, owned, &mut row)?;
        made.push_row(&row)?;
    }
    Ok(made)
}
