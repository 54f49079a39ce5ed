ghost use Rattle.std.specs.Prelude.{◌≡◌, ◌<◌, [], length, slice_index_or, All};
ghost use Rattle.graph_core.specs.Parts.{FragmentLists, IsFragment, place_count};

use crate::row_table::Rows;
use std::marker::Model;

/// What one vertex reads of another, or is read by: a place of the fragment, and the weight of the edge
/// between them.
#[derive(Clone, Copy, Debug, PartialEq, Eq, PartialOrd, Ord)]
pub struct Reading {
    pub place: u32,
    pub weight: u32,
}

/// Where the value of an owned vertex is sent: a fragment, and the number of its mirror there, from 0.
#[derive(Clone, Copy, Debug, PartialEq, Eq)]
pub struct Route {
    pub fragment: u32,
    pub mirror: u32,
}

/// What a fragment is made of. `owned` and `mirrors` are vertex indexes; the rows are those that
/// `Fragment` gives back.
#[derive(Drop)]
pub struct FragmentParts {
    pub number: u32,
    pub owned: Vec<u32>,
    pub mirrors: Vec<u32>,
    pub readings: Rows<Reading>,
    pub readers: Rows<Reading>,
    pub routes: Rows<Route>,
}

/// A part of a graph, with copies of the vertices that it reads and does not own.
///
/// A place counts the owned vertices first and the mirrors after them, each in rising index. A mirror
/// number counts the mirrors from 0.
#[derive(Drop)]
pub struct Fragment {
    number: u32,
    owned: Vec<u32>,
    mirrors: Vec<u32>,
    readings: Rows<Reading>,
    readers: Rows<Reading>,
    routes: Rows<Route>,
}

impl Model for Fragment {
    ghost use Rattle.graph_core.specs.Parts.{FragmentLists, IsFragment};

    ghost Value = { FragmentLists };

    ghost view = { λ f. record {
      number = f.number;
      owned = f.owned.items;
      mirrors = f.mirrors.items;
      readings = f.readings;
      readers = f.readers;
      routes = f.routes;
    } };

    ghost invariant = { λ f. IsFragment (record {
      number = f.number;
      owned = f.owned.items;
      mirrors = f.mirrors.items;
      readings = f.readings;
      readers = f.readers;
      routes = f.routes;
    }) };
}

impl Fragment {
    ghost use Rattle.graph_core.specs.PartLists.{lists_of};

    /// The fragment of these parts.
    pub fn from_parts(parts: FragmentParts) -> Fragment
        requires { IsFragment (lists_of parts) }
        ensures { result ≡ lists_of parts }
    {
        Fragment {
            number: parts.number,
            owned: parts.owned,
            mirrors: parts.mirrors,
            readings: parts.readings,
            readers: parts.readers,
            routes: parts.routes,
        }
    }

    /// The number of the fragment, from 0.
    pub fn number(&self) -> u32
        ensures number { result ≡ self.now.number }
        ensures fragment { IsFragment self.now }
    {
        self.number
    }

    /// The indexes of the vertices that it owns, by place.
    pub fn owned(&self) -> &[u32]
        ensures owned { result.now ≡ self.now.owned }
        ensures fragment { IsFragment self.now }
    {
        &self.owned
    }

    /// The indexes of its mirrors, by mirror number. Their places follow the owned ones.
    pub fn mirrors(&self) -> &[u32]
        ensures mirrors { result.now ≡ self.now.mirrors }
        ensures fragment { IsFragment self.now }
    {
        &self.mirrors
    }

    /// What the owned vertex at this place reads.
    pub fn readings(&self, place: u32) -> &[Reading]
        requires { place < length self.now.owned }
        ensures readings { result.now ≡ slice_index_or self.now.readings place [] }
        ensures in_range { All (λ reading. reading.place < place_count self.now) result.now }
    {
        self.readings.row(place as usize)
    }

    /// The owned vertices that read the vertex at this place.
    pub fn readers(&self, place: u32) -> &[Reading]
        requires { place < place_count self.now }
        ensures readers { result.now ≡ slice_index_or self.now.readers place [] }
        ensures in_range { All (λ reading. reading.place < length self.now.owned) result.now }
    {
        self.readers.row(place as usize)
    }

    /// The mirrors of the owned vertex at this place, in other fragments.
    pub fn routes(&self, place: u32) -> &[Route]
        requires { place < length self.now.owned }
        ensures { result.now ≡ slice_index_or self.now.routes place [] }
    {
        self.routes.row(place as usize)
    }
}
