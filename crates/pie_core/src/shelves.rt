ghost use Rattle.std.specs.Prelude.{◌≡◌, ◌^◌, ◌<◌, IfOk, vec_len};

use grape_port::NoMemory;
use std::alloc::Global;
use std::marker::Model;

/// How many shelves there are.
const SHELVES: usize = 256;

/// What stands next to a place, or to a shelf's end, in the round of its shelf.
#[derive(Clone, Copy)]
struct Link {
    next: u32,
    back: u32,
}

/// Places on shelves by value: each shelf is a round of places, linked both ways, that begins and ends with the shelf
/// itself. Where the values of the places that lie on shelves are near each other, the first place is one with a least value.
/// All of this is a hint: contracts see for how many places there is room, and each link is compared with that before use.
#[derive(Drop)]
pub(crate) struct Shelves {
    /// The links of the places, and then those of the shelves.
    links: Vec<Link>,
    /// A bit for each shelf with places, and for some without.
    used: [u64; 4],
    /// The value of the present shelf, without the bits that don't count.
    least: u64,
    /// How many low bits of a value don't count.
    shift: u32,
}

impl Model for Shelves {
    ghost use Rattle.std.specs.Prelude.{ℕ, ◌-◌, ◌^◌, ◌<◌, ◌≤◌, vec_len};

    ghost Value = { ℕ };

    ghost view = { λ s. vec_len s.links - 256 };

    ghost invariant = { λ s. (256 ≤ vec_len s.links) × (vec_len s.links < 2 ^ 32) × (s.shift < 64) };
}

impl Shelves {
    /// Empty shelves for the places below `room`. An error comes where memory runs out, or where there are more places than
    /// numbers of 32 bits.
    pub(crate) fn new(alloc: Global, room: usize) -> Result<Shelves, NoMemory>
        ensures { IfOk result (λ shelves. shelves ≡ room) }
    {
        if room > u32::MAX as usize - SHELVES {
            return Err(NoMemory);
        }
        Ok(Shelves {
            links: own_rounds(alloc, room + SHELVES)?,
            used: [0; 4],
            least: 0,
            shift: 0,
        })
    }

    /// Says how far apart the values are, at most, that lie on shelves at one time. To be called where the shelves are empty.
    pub(crate) fn space(&mut self, apart: u64)
        ensures { self.new ≡ self.old }
    {
        self.shift = shift_for(apart);
    }

    /// Makes the shelf of a value the present one. To be called where the shelves are empty.
    pub(crate) fn begin(&mut self, value: u64)
        ensures { self.new ≡ self.old }
    {
        self.least = value >> self.shift;
    }

    /// Puts a place last on the shelf of its value. To be called where it is on no shelf.
    pub(crate) fn put(&mut self, place: u32, value: u64)
        requires { place < self.old }
        ensures { self.new ≡ self.old }
    {
        let key = value >> self.shift;
        self.least = self.least.min(key);
        let shelf = (key % 256) as usize;
        self.used[shelf / 64] |= 1 << (shelf % 64);
        let end = self.links.len() - SHELVES + shelf;
        let last = self.links[end].back;
        self.links[place as usize] = Link {
            next: end as u32,
            back: last,
        };
        self.join(last, place);
        self.join(place, end as u32);
    }

    /// Takes a place off its shelf. To be called where it is on one.
    pub(crate) fn take_out(&mut self, place: u32)
        requires { place < self.old }
        ensures { self.new ≡ self.old }
    {
        let link = self.links[place as usize];
        self.join(link.back, link.next);
    }

    /// Moves a place from the shelf of its old value to that of its new one.
    pub(crate) fn move_over(&mut self, place: u32, old: u64, value: u64)
        requires { place < self.old }
        ensures { self.new ≡ self.old }
    {
        if old >> self.shift != value >> self.shift {
            self.take_out(place);
            self.put(place, value);
        }
    }

    /// Lets two links stand next to each other.
    fn join(&mut self, before: u32, behind: u32)
        ensures { self.new ≡ self.old }
    {
        if (before as usize) < self.links.len() {
            self.links[before as usize].next = behind;
        }
        if (behind as usize) < self.links.len() {
            self.links[behind as usize].back = before;
        }
    }

    /// The first place of the present shelf, or of the next one with places, which becomes the present one. Where no place lies
    /// on a shelf it is a number beyond all places.
    pub(crate) fn first(&mut self) -> u32
        ensures { self.new ≡ self.old }
    {
        'shelves: for _turn in 0..=SHELVES {
            let place = self.first_present();
            if (place as usize) < self.links.len() - SHELVES {
                return place;
            }
            self.go_on();
        }
        u32::MAX
    }

    /// The first place of the present shelf, and the number of the shelf, beyond all places, where it is empty.
    fn first_present(&self) -> u32 {
        let room = self.links.len() - SHELVES;
        self.links[room + (self.least % 256) as usize].next
    }

    /// Makes the next shelf that may have places the present one, and notes that this one is empty.
    fn go_on(&mut self)
        ensures { self.new ≡ self.old }
    {
        let shelf = (self.least % 256) as usize;
        self.used[shelf / 64] &= !(1 << (shelf % 64));
        self.least = self.least.wrapping_add(self.to_next(shelf));
    }

    /// How many shelves further the next one is that may have places, round and round.
    fn to_next(&self, shelf: usize) -> u64
        requires { shelf < 256 }
    {
        let word = shelf / 64;
        let bits = self.used[word] >> (shelf % 64);
        if bits != 0 {
            return u64::from(bits.trailing_zeros());
        }
        'words: for step in 1..=4 {
            let bits = self.used[(word + step) % 4];
            if bits != 0 {
                return (64 * step - shelf % 64) as u64 + u64::from(bits.trailing_zeros());
            }
        }
        0
    }
}

/// So many links, each of which is a round of its own.
fn own_rounds(alloc: Global, count: usize) -> Result<Vec<Link>, NoMemory>
    requires { count < 2 ^ 32 }
    ensures { IfOk result (λ links. vec_len links ≡ count) }
{
    let mut links = vec![in alloc; Link { next: 0, back: 0 }; count].map_err(|_| NoMemory)?;
    'links: for place in 0..count {
        links[place] = Link {
            next: place as u32,
            back: place as u32,
        };
    }
    Ok(links)
}

/// The least shift for which values that are so far apart lie on 255 shelves at most.
fn shift_for(apart: u64) -> u32
    ensures { result < 64 }
{
    'shifts: for shift in 0..64 {
        if apart >> shift < 255 {
            return shift;
        }
    }
    63
}
