ghost use Rattle.std.specs.Prelude.{◌≡◌, ◌<◌, ◌≤◌, ◌^◌, ◌+◌, ◌++◌, ℕ, map, length, IfOk, All, slice_index};
ghost use Rattle.graph_core.specs.Graphs.{count_of, IsJob};
ghost use Rattle.graph_core.specs.Parts.{IsFragment};
ghost use Rattle.graph_core.specs.Fragments.{numbers_below, owned_of, mirrors_of, places_of, readings_of, readers_of, StandsAt};
ghost use Rattle.fragment_cut.specs.Filing.{reads_table, readers_table};
ghost use Rattle.fragment_cut.specs.Owners.{owners_of, StandOnce};

use crate::counting::turned_table;
use crate::piece::{marks_of, mirrors_by, number_places, owned_by, placed_rows};
use grape_port::NoMemory;
use graph_core::{Fragment, FragmentParts, Job, Reading, Route, Rows};
use std::alloc::Global;
use std::marker::Model;

/// A fragment without its routes.
#[derive(Drop)]
pub struct Half {
    owned: Vec<u32>,
    mirrors: Vec<u32>,
    readings: Rows<Reading>,
    readers: Rows<Reading>,
}

impl Model for Half {
    ghost use Rattle.fragment_cut.specs.Halves.{HalfLists};

    ghost Value = { HalfLists };

    ghost view = { λ h. record { owned = h.owned.items; mirrors = h.mirrors.items; readings = h.readings; readers = h.readers } };
}

/// The mirrors of a fragment that owns these vertices, by rising index.
fn mirrors_read(
    alloc: Global,
    job: &Job,
    owners: &[u32],
    fragment: u32,
    owned: &[u32],
    reads: &Rows<Reading>,
) -> Result<Vec<u32>, NoMemory>
    requires job { IsJob job.now }
    requires fragment { fragment < job.now.settings.fragments }
    requires owners { owners.now ≡ owners_of job.now }
    requires owned { owned.now ≡ owned_of job.now fragment }
    requires reads { reads.now ≡ reads_table job.now.graph job.now.query }
    ensures { IfOk result (λ mirrors. mirrors.items ≡ mirrors_of job.now fragment) }
{
    let marks = marks_of(alloc, owned, reads, job.graph.count())?;
    mirrors_by(alloc, job, owners, fragment, &marks)
}

/// Numbers the owned vertices from 0 on, and then the mirrors.
fn number_all(owned: &[u32], mirrors: &[u32], places: &mut [u32])
    requires few { length owned.now + length mirrors.now < 2 ^ 32 }
    requires inside { All (λ v. v < length places.old) (owned.now ++ mirrors.now) }
    requires once { StandOnce (owned.now ++ mirrors.now) }
    ensures len { length places.new ≡ length places.old }
    ensures places { (p v : ℕ) → StandsAt (owned.now ++ mirrors.now) p v → slice_index places.new v ≡ p }
{
    number_places(owned, 0, places);
    number_places(mirrors, owned.len() as u32, places);
}

/// What a fragment's owned vertices read, by place. It leaves the place of each of its vertices.
fn fragment_reads(
    alloc: Global,
    job: &Job,
    fragment: u32,
    owned: &[u32],
    mirrors: &[u32],
    reads: &Rows<Reading>,
    places: &mut [u32],
) -> Result<Rows<Reading>, NoMemory>
    requires job { IsJob job.now }
    requires fragment { fragment < job.now.settings.fragments }
    requires owned { owned.now ≡ owned_of job.now fragment }
    requires mirrors { mirrors.now ≡ mirrors_of job.now fragment }
    requires reads { reads.now ≡ reads_table job.now.graph job.now.query }
    requires places { length places.old ≡ count_of job.now.graph }
    ensures { IfOk result (λ readings. readings ≡ map (readings_of job.now fragment) (owned_of job.now fragment)) }
{
    number_all(owned, mirrors, places);
    placed_rows(alloc, owned, reads, places)
}

/// By whom the vertices of a fragment are read, by place, where its owned vertices read this.
fn fragment_readers(
    alloc: Global,
    job: &Job,
    fragment: u32,
    readings: &Rows<Reading>,
    places: u32,
) -> Result<Rows<Reading>, NoMemory>
    requires job { IsJob job.now }
    requires fragment { fragment < job.now.settings.fragments }
    requires readings { readings.now ≡ map (readings_of job.now fragment) (owned_of job.now fragment) }
    requires places { places ≡ length (places_of job.now fragment) }
    ensures { IfOk result (λ readers. readers ≡ map (readers_of job.now fragment) (places_of job.now fragment)) }
{
    turned_table(alloc, readings, places)
}

/// The numbers from 0 up to this one.
fn all_below(alloc: Global, count: u32) -> Result<Vec<u32>, NoMemory>
    ensures { IfOk result (λ numbers. numbers.items ≡ numbers_below count) }
{
    let mut numbers = Vec::with_capacity(alloc, count as usize)?;
    for number in 0..count {
        numbers.push(number)?;
    }
    Ok(numbers)
}

impl Half {
    ghost use Rattle.fragment_cut.specs.Halves.{half_of, whole};

    /// The fragment with this number, but for its routes. `owners` and `reads` are those of the whole
    /// graph, and `places` is room for a place a vertex.
    pub fn build(
        alloc: Global,
        job: &Job,
        owners: &[u32],
        reads: &Rows<Reading>,
        places: &mut [u32],
        fragment: u32,
    ) -> Result<Half, NoMemory>
        requires job { IsJob job.now }
        requires fragment { fragment < job.now.settings.fragments }
        requires owners { owners.now ≡ owners_of job.now }
        requires reads { reads.now ≡ reads_table job.now.graph job.now.query }
        requires places { length places.old ≡ count_of job.now.graph }
        ensures { IfOk result (λ half. half ≡ half_of job.now fragment) }
    {
        let owned = owned_by(alloc, job, owners, fragment)?;
        let mirrors = mirrors_read(alloc, job, owners, fragment, &owned, reads)?;
        let readings = fragment_reads(alloc, job, fragment, &owned, &mirrors, reads, places)?;
        let count = (owned.len() + mirrors.len()) as u32;
        let readers = fragment_readers(alloc, job, fragment, &readings, count)?;
        Ok(Half {
            owned,
            mirrors,
            readings,
            readers,
        })
    }

    /// The only fragment of a job, but for its routes. `reads` and `readers` are those of the whole graph.
    pub fn only(
        alloc: Global,
        job: &Job,
        reads: Rows<Reading>,
        readers: Rows<Reading>,
    ) -> Result<Half, NoMemory>
        requires job { IsJob job.now }
        requires fragments { job.now.settings.fragments ≡ 1 }
        requires reads { reads ≡ reads_table job.now.graph job.now.query }
        requires readers { readers ≡ readers_table job.now.graph job.now.query }
        ensures { IfOk result (λ half. half ≡ half_of job.now 0) }
    {
        let owned = all_below(alloc, job.graph.count())?;
        Ok(Half {
            owned,
            mirrors: Vec::new(alloc),
            readings: reads,
            readers,
        })
    }

    /// The indexes of the vertices that the fragment owns, by place.
    pub fn owned(&self) -> &[u32]
        ensures { result.now ≡ self.now.owned }
    {
        &self.owned
    }

    /// The indexes of its mirrors, by mirror number.
    pub fn mirrors(&self) -> &[u32]
        ensures { result.now ≡ self.now.mirrors }
    {
        &self.mirrors
    }

    /// The fragment with this number and these routes.
    pub fn with_routes(self, number: u32, routes: Rows<Route>) -> Fragment
        requires { IsFragment (whole self number routes) }
        ensures { result ≡ whole self number routes }
    {
        let Half {
            owned,
            mirrors,
            readings,
            readers,
        } = self;
        Fragment::from_parts(FragmentParts {
            number,
            owned,
            mirrors,
            readings,
            readers,
            routes,
        })
    }
}
