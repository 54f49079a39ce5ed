ghost use Rattle.std.specs.Prelude.{◌≡◌, ◌≢◌, ◌<◌, ◌≤◌, ◌^◌, ◌/◌, ℕ, length, slice_index, false, OnOk, OnErr};
ghost use Rattle.text_lines.specs.WordTables.{entry_in, leaf_in, word_in, word_at, LeadApart, LeadAlike, SayTheSame};

use grape_port::NoMemory;
use std::alloc::Global;
use std::marker::Model;

/// How many tops there are: each leads to 512 leaves, and a leaf has 8 words.
const TOPS: usize = 16_384;

/// 67,108,864 words, all 0 at first.
///
/// A word is read in three steps. The first word that isn't 0 takes 64 KiB for the tops, and each further one at most
/// 2 KiB for a middle and 64 bytes for a leaf. All middles together take 32 MiB.
#[derive(Drop)]
pub(crate) struct SparseWords {
    tops: Vec<u32>,
    middles: Vec<u32>,
    words: Vec<u64>,
}

impl Model for SparseWords {
    ghost use Rattle.text_lines.specs.WordTables.{WordTables, LeadApart};

    ghost Value = { WordTables };

    ghost view = { λ s. record { tops = s.tops.items; middles = s.middles.items; words = s.words.items } };

    ghost invariant = { λ s. LeadApart 512 s.tops.items s.middles.items × LeadApart 8 s.middles.items s.words.items };
}

impl SparseWords {
    /// No word that isn't 0.
    pub(crate) fn new(alloc: Global) -> SparseWords
        ensures { (k : ℕ) → word_at result k ≡ 0 }
    {
        SparseWords {
            tops: Vec::new(alloc),
            middles: Vec::new(alloc),
            words: Vec::new(alloc),
        }
    }

    /// The word at a place.
    pub(crate) fn word(&self, place: usize) -> u64
        ensures { result ≡ word_at self.now place }
    {
        let leaf = leaf_of(&self.tops, &self.middles, place);
        entry_of_words(&self.words, leaf, place % 8)
    }

    /// Whether a top leads to leaves. Where it doesn't, each of its 4,096 words is 0.
    pub(crate) fn has_leaves(&self, top: usize) -> bool
        ensures { result ≡ false → (k : ℕ) → k / 4096 ≡ top → word_at self.now k ≡ 0 }
    {
        top < self.tops.len() && self.tops[top] != 0
    }

    /// Whether 8 words have a leaf. Where they don't, each of them is 0.
    pub(crate) fn has_leaf(&self, leaf: usize) -> bool
        requires { leaf < 2 ^ 23 }
        ensures { result ≡ false → (k : ℕ) → k / 8 ≡ leaf → word_at self.now k ≡ 0 }
    {
        leaf_of(&self.tops, &self.middles, 8 * leaf) != 0
    }

    /// Writes a word, whose leaf is made where it has none.
    pub(crate) fn write(&mut self, place: usize, word: u64) -> Result<(), NoMemory>
        requires { place < 2 ^ 26 }
        ensures here { OnOk result (word_at self.new place ≡ word) }
        ensures elsewhere { (k : ℕ) → k ≢ place → word_at self.new k ≡ word_at self.old k }
        ensures err { OnErr result ((k : ℕ) → word_at self.new k ≡ word_at self.old k) }
    {
        self.make_leaf(place)?;
        let leaf = leaf_of(&self.tops, &self.middles, place) as usize;
        self.words[(leaf - 1) * 8 + place % 8] = word;
        Ok(())
    }

    /// Makes the leaf of a word, if it has none. No word changes.
    fn make_leaf(&mut self, place: usize) -> Result<(), NoMemory>
        requires { place < 2 ^ 26 }
        ensures there { OnOk result (0 < leaf_in self.new.tops self.new.middles place) }
        ensures same { (k : ℕ) → word_at self.new k ≡ word_at self.old k }
    {
        make_tops(&mut self.tops)?;
        let top = place / 4096;
        make_middle(&mut self.tops, &mut self.middles, top)?;
        let middle = self.tops[top] as usize;
        make_words(
            &mut self.middles,
            &mut self.words,
            (middle - 1) * 512 + place / 8 % 512,
        )
    }
}

/// The entry at a place of a block, or 0 where there is no block.
fn entry_of(entries: &[u32], block: u32, place: usize) -> u32
    requires { place < 512 }
    ensures { result ≡ entry_in 512 entries.now block place }
{
    if block == 0 {
        return 0;
    }
    let index = (block - 1) as usize * 512 + place;
    if index < entries.len() {
        entries[index]
    } else {
        0
    }
}

/// The word at a place of a leaf, or 0 where there is no leaf.
fn entry_of_words(words: &[u64], leaf: u32, place: usize) -> u64
    requires { place < 8 }
    ensures { result ≡ entry_in 8 words.now leaf place }
{
    if leaf == 0 {
        return 0;
    }
    let index = (leaf - 1) as usize * 8 + place;
    if index < words.len() { words[index] } else { 0 }
}

/// The leaf of a word, counted from 1, or 0 where it has none.
fn leaf_of(tops: &[u32], middles: &[u32], place: usize) -> u32
    ensures { result ≡ leaf_in tops.now middles.now place }
{
    let top = place / 4096;
    if top < tops.len() {
        entry_of(middles, tops[top], place / 8 % 512)
    } else {
        0
    }
}

/// Makes room for all tops. Those that are new lead nowhere.
fn make_tops(tops: &mut Vec<u32>) -> Result<(), NoMemory>
    ensures there { OnOk result (TOPS ≤ length tops.new.items) }
    ensures same { SayTheSame tops.old.items tops.new.items }
{
    if tops.len() < TOPS {
        tops.resize(TOPS, 0)?;
    }
    Ok(())
}

/// Makes the middle of a top, if it has none.
fn make_middle(tops: &mut Vec<u32>, middles: &mut Vec<u32>, top: usize) -> Result<(), NoMemory>
    requires inside { top < length tops.old.items }
    requires order { LeadApart 512 tops.old.items middles.old.items }
    ensures order { LeadApart 512 tops.new.items middles.new.items }
    ensures there { OnOk result (0 < slice_index tops.new.items top) }
    ensures alike { LeadAlike 512 tops.old.items middles.old.items tops.new.items middles.new.items }
    ensures same { SayTheSame middles.old.items middles.new.items }
{
    if tops[top] != 0 {
        return Ok(());
    }
    let blocks = middles.len() / 512;
    let Ok(name) = u32::try_from(blocks + 1) else {
        return Err(NoMemory);
    };
    middles.resize(blocks * 512 + 512, 0)?;
    tops[top] = name;
    Ok(())
}

/// Makes the leaf that an entry of the middles leads to, if there is none.
fn make_words(middles: &mut Vec<u32>, words: &mut Vec<u64>, entry: usize) -> Result<(), NoMemory>
    requires inside { entry < length middles.old.items }
    requires order { LeadApart 8 middles.old.items words.old.items }
    ensures order { LeadApart 8 middles.new.items words.new.items }
    ensures there { OnOk result (0 < slice_index middles.new.items entry) }
    ensures alike { LeadAlike 8 middles.old.items words.old.items middles.new.items words.new.items }
    ensures len { length middles.new.items ≡ length middles.old.items }
{
    if middles[entry] != 0 {
        return Ok(());
    }
    let blocks = words.len() / 8;
    let Ok(name) = u32::try_from(blocks + 1) else {
        return Err(NoMemory);
    };
    words.resize(blocks * 8 + 8, 0)?;
    middles[entry] = name;
    Ok(())
}
