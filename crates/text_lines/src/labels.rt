ghost use Rattle.std.specs.Prelude.{◌≡◌, ◌<◌, true, [], length, slice_index, All, IfOk};
ghost use Rattle.text_lines.specs.NumberSets.{DoRise, is_among};
ghost use Rattle.text_lines.specs.Labels.{labelled};

use grape_port::NoMemory;
use std::alloc::Global;

/// The vertices with these numbers, each with its label: the one that stands first beside its number, or 0. A label
/// takes a binary search, unless the label behind it is that of the next vertex.
pub fn with_labels(
    alloc: Global,
    numbers: &[u32],
    labels: &[(u32, u32)],
) -> Result<Vec<(u32, u32)>, NoMemory>
    requires rising { DoRise numbers.now }
    requires among { All (λ label. is_among label.0 numbers.now ≡ true) labels.now }
    ensures { IfOk result (λ vertices. vertices.items ≡ labelled labels.now numbers.now) }
{
    let mut vertices = without_labels(alloc, numbers)?;
    let mut rest = labels;
    let mut guess = 0;
    'labels: while let Some((vertex, front)) = rest.split_last() {
        let place = place_of(numbers, vertex.0, guess);
        vertices[place] = *vertex;
        guess = place.saturating_sub(1);
        rest = front;
    }
    Ok(vertices)
}

/// The vertices with these numbers and the label 0.
fn without_labels(alloc: Global, numbers: &[u32]) -> Result<Vec<(u32, u32)>, NoMemory>
    ensures { IfOk result (λ vertices. vertices.items ≡ labelled [] numbers.now) }
{
    let vertices = numbers.iter().map(|number| (*number, 0)).collect(alloc)?;
    Ok(vertices)
}

/// The place of a number among numbers that rise. A guess is tried first.
fn place_of(numbers: &[u32], number: u32, guess: usize) -> usize
    requires rising { DoRise numbers.now }
    requires among { is_among number numbers.now ≡ true }
    ensures place { result < length numbers.now }
    ensures found { slice_index numbers.now result ≡ number }
{
    if guess < numbers.len() && numbers[guess] == number {
        return guess;
    }
    match numbers.binary_search(&number) {
        Ok(place) | Err(place) => place,
    }
}
