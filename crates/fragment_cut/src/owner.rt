ghost use Rattle.std.specs.Prelude.{◌≡◌, ◌<◌, ◌≤◌};
ghost use Rattle.graph_core.specs.Fragments.{owner_of};

use graph_core::{Cut, Settings};

/// 2^32 divided by the golden ratio: the factor of Knuth's multiplicative hash.
const HASH_FACTOR: u32 = 2654435769;

/// The fragment that owns the vertex with this number and this index, of `count` vertices.
///
/// By range it is the vertex's share of the indexes, and by hash that of the top bits of its number times
/// 2654435769, modulo 2^32.
pub fn owner_of(settings: &Settings, id: u32, index: u32, count: u32) -> u32
    requires index { index < count }
    requires some { 1 ≤ settings.now.fragments }
    requires few { settings.now.fragments ≤ 64 }
    ensures owner { result ≡ owner_of settings.now.cut settings.now.fragments id index count }
    ensures inside { result < settings.now.fragments }
{
    let fragments = u64::from(settings.fragments);
    match settings.cut {
        Cut::Range => (u64::from(index) * fragments / u64::from(count)) as u32,
        Cut::Hash => {
            let hash = u64::from(id.wrapping_mul(HASH_FACTOR));
            (hash * fragments >> 32) as u32
        }
    }
}
