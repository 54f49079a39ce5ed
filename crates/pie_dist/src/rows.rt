ghost use Rattle.std.specs.Prelude.{◌≡◌, ◌⊎◌, ℕ, ◌+◌, ◌-◌, ◌*◌, ◌^◌, ◌<◌, ◌≤◌, ◌==◌, if◌then◌else◌, Some, None, length, replicate, slice_index};
ghost use Rattle.pie_dist.specs.NearHeaps.{IsHeap, IsPopped, IsRefreshed, HasLeaf, lesser_key, lowered, heap_of, nearer};

/// The rows hold the empty heap of so many places. They are at least `3 * room + 1` numbers.
pub fn rows_clear(rows: &mut [u64], room: u32)
    requires { 3 * room + 1 ≤ length rows.old }
    ensures heap { IsHeap room rows.new }
    ensures none { heap_of room rows.new ≡ replicate room None }
{
    let nodes = 2 * room as usize;
    'nodes: for index in 0..nodes {
        rows[index] = 0;
    }
}

/// The nearer of two names, each of which is 0 or one more than a place below the room.
fn nearer(rows: &[u64], room: usize, first: u64, second: u64) -> u64
    requires room { room < 2 ^ 32 }
    requires long { 3 * room + 1 ≤ length rows.now }
    requires first { first ≤ room }
    requires second { second ≤ room }
    ensures { result ≡ nearer room rows.now first second }
{
    if first == 0 {
        return second;
    }
    if second == 0 {
        return first;
    }
    let first_key = rows[2 * room + (first as usize - 1)];
    let second_key = rows[2 * room + (second as usize - 1)];
    if second_key < first_key {
        return second;
    }
    if first_key < second_key {
        return first;
    }
    first.min(second)
}

/// Writes the nodes above a leaf anew.
fn refresh(rows: &mut [u64], room: usize, leaf: usize)
    requires room { room < 2 ^ 32 }
    requires heap { HasLeaf room leaf rows.old }
    ensures { IsRefreshed room rows.old rows.new }
{
    let mut index = leaf;
    'nodes: while index > 1 {
        index /= 2;
        let name = nearer(rows, room, rows[2 * index], rows[2 * index + 1]);
        rows[index] = name;
    }
}

/// The key of a leaf that names nothing or has a key, once it is lowered.
fn lesser(name: u64, before: u64, key: u64) -> u64
    ensures { result ≡ lesser_key (if name == 0 then None else Some before) key }
{
    if name == 0 { key } else { before.min(key) }
}

/// Adds the place to the heap, or lowers its key where the new key is smaller. The place lies below the room.
pub fn rows_lower(rows: &mut [u64], room: u32, place: u32, key: u64)
    requires heap { IsHeap room rows.old }
    requires place { place < room }
    ensures heap { IsHeap room rows.new }
    ensures lowered { heap_of room rows.new ≡ lowered (heap_of room rows.old) place key }
{
    let room = room as usize;
    let place = place as usize;
    let leaf = room + place;
    let least = lesser(rows[leaf], rows[2 * room + place], key);
    rows[2 * room + place] = least;
    rows[leaf] = place as u64 + 1;
    refresh(rows, room, leaf);
}

/// Takes the least key off the heap, of equal keys that of the least place. None comes exactly where the heap is empty.
pub fn rows_pop(rows: &mut [u64], room: u32) -> Option<(u32, u64)>
    requires { IsHeap room rows.old }
    ensures heap { IsHeap room rows.new }
    ensures popped { IsPopped (heap_of room rows.old) result (heap_of room rows.new) }
{
    let room = room as usize;
    if room == 0 || rows[1] == 0 {
        return None;
    }
    let place = rows[1] as usize - 1;
    let key = rows[2 * room + place];
    rows[room + place] = 0;
    refresh(rows, room, room + place);
    Some((place as u32, key))
}
