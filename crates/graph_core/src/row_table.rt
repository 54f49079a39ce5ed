ghost use Rattle.std.specs.Prelude.{◌≡◌, ◌<◌, ◌+◌, ◌==◌, [], ◌∷◌, ◌++◌, length, sum_by, slice_index_or, vec_len, IfOk, OnOk, OnErr};
ghost use Rattle.graph_core.specs.RowTable.{AreOffsets, rows_at};

use grape_port::NoMemory;
use std::alloc::Global;
use std::marker::Model;

/// A list of lists, the rows, whose items stand in one vector. It takes 4 bytes a row beside the items, of which there
/// are at most 4,294,967,295.
#[derive(Drop)]
pub struct Rows<T> {
    items: Vec<T>,
    offsets: Vec<u32>,
}

impl<T> Model for Rows<T> {
    ghost use Rattle.std.specs.Prelude.{List, vec_len};
    ghost use Rattle.graph_core.specs.RowTable.{AreOffsets, rows_at};

    ghost Value = { List (List T) };

    ghost view = { λ r. rows_at r.items.items r.offsets.items };

    ghost invariant = { λ r. AreOffsets r.offsets.items (vec_len r.items) };
}

/// The offset at which a row of so many items ends that begins at `start`. The error comes where no offset is so large.
fn end_after(start: usize, count: usize) -> Result<u32, NoMemory>
    ensures { IfOk result (λ end. end ≡ start + count) }
{
    let largest = u32::MAX as usize;
    if start > largest || count > largest - start {
        return Err(NoMemory);
    }
    Ok((start + count) as u32)
}

impl<T: Copy> Rows<T> {
    /// No rows yet, with room for this many rows and for this many items in all of them together.
    pub fn with_capacity(alloc: Global, rows: usize, items: usize) -> Result<Rows<T>, NoMemory>
        ensures { IfOk result (λ made. made ≡ []) }
    {
        let items = Vec::with_capacity(alloc, items).map_err(|_| NoMemory)?;
        let mut offsets = Vec::with_capacity(alloc, rows.saturating_add(1)).map_err(|_| NoMemory)?;
        offsets.push(0).map_err(|_| NoMemory)?;
        Ok(Rows { items, offsets })
    }

    /// The rows over these items whose offsets these are: row `i` has the items from offset `i` up to
    /// offset `i + 1`.
    pub fn from_offsets(items: Vec<T>, offsets: Vec<u32>) -> Rows<T>
        requires { AreOffsets offsets.items (vec_len items) }
        ensures { result ≡ rows_at items.items offsets.items }
    {
        Rows { items, offsets }
    }

    /// How many rows there are.
    pub fn len(&self) -> usize
        ensures { result ≡ length self.now }
    {
        self.offsets.len() - 1
    }

    /// Whether there is no row.
    pub fn is_empty(&self) -> bool
        ensures { result ≡ (length self.now == 0) }
    {
        self.len() == 0
    }

    /// How many items all rows have together.
    pub fn total(&self) -> u32
        ensures { result ≡ sum_by (λ row. length row) self.now }
    {
        self.offsets[self.offsets.len() - 1]
    }

    /// The row with this index.
    pub fn row(&self, index: usize) -> &[T]
        requires { index < length self.now }
        ensures { result.now ≡ slice_index_or self.now index [] }
    {
        let start = self.offsets[index];
        let end = self.offsets[index + 1];
        &self.items[start as usize..end as usize]
    }

    /// Adds a row after the others. Where memory runs out, or the rows would have more than 4,294,967,295 items,
    /// the error comes and the rows stay as they were.
    pub fn push_row(&mut self, row: &[T]) -> Result<(), NoMemory>
        ensures ok { OnOk result (self.new ≡ self.old ++ row.now ∷ []) }
        ensures err { OnErr result (self.new ≡ self.old) }
    {
        let start = self.items.len();
        let end = end_after(start, row.len())?;
        self.items.extend_from_slice(row).map_err(|_| NoMemory)?;
        if self.offsets.push(end).is_err() {
            self.items.truncate(start);
            return Err(NoMemory);
        }
        Ok(())
    }
}
