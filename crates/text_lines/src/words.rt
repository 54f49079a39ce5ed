ghost use Rattle.std.specs.Prelude.{◌≡◌, ◌==◌, ◌∷◌, [], false, length, MatchOption, not};
ghost use Rattle.std.specs.List.{prefix_len, position_or_len};
ghost use Rattle.text_lines.specs.Lines.{is_blank, words_in};

/// A space or a tab.
fn is_blank(byte: u8) -> bool
    ensures { result ≡ is_blank byte }
{
    byte == b' ' || byte == b'\t'
}

/// How many blanks stand at the front of the text.
fn leading_blanks(text: &[u8]) -> usize
    ensures { result ≡ prefix_len is_blank text.now }
{
    text.iter()
        .position(|byte| !is_blank(*byte))
        .unwrap_or(text.len())
}

/// How many bytes stand before the first blank of the text.
fn word_length(text: &[u8]) -> usize
    ensures { result ≡ position_or_len is_blank text.now }
{
    text.iter()
        .position(|byte| is_blank(*byte))
        .unwrap_or(text.len())
}

/// The first word of a text, and what stands behind it; or `None` where there are no words.
pub fn split_word(text: &[u8]) -> Option<(&[u8], &[u8])>
    ensures { MatchOption result (words_in text.now ≡ []) (λ parts. words_in text.now ≡ parts.0.now ∷ words_in parts.1.now) }
{
    let blanks = leading_blanks(text);
    let (_, from_word) = text.split_at(blanks);
    if from_word.is_empty() {
        return None;
    }
    let length = word_length(from_word);
    Some(from_word.split_at(length))
}

/// The one word of a text, or `None` where there is none or more than one.
pub fn only_word(text: &[u8]) -> Option<&[u8]>
    ensures { MatchOption result ((length (words_in text.now) == 1) ≡ false) (λ word. words_in text.now ≡ word.now ∷ []) }
{
    let (word, rest) = split_word(text)?;
    match split_word(rest) {
        None => Some(word),
        Some(_) => None,
    }
}

/// The two words of a text, or `None` where there are fewer or more.
pub fn two_words(text: &[u8]) -> Option<(&[u8], &[u8])>
    ensures { MatchOption result ((length (words_in text.now) == 2) ≡ false) (λ words. words_in text.now ≡ words.0.now ∷ words.1.now ∷ []) }
{
    let (first, rest) = split_word(text)?;
    let second = only_word(rest)?;
    Some((first, second))
}
