ghost use Rattle.std.specs.Prelude.{◌≡◌, ◌++◌, length, MatchOption};
ghost use Rattle.text_lines.specs.Lines.{without_last, before_line_feed, HasNoLineFeed, IsOneLine};

use memchr::memchr;

/// The bytes up to the first line feed, with it, and those behind it.
pub fn split_line(text: &[u8]) -> Option<(&[u8], &[u8])>
    ensures { MatchOption result (HasNoLineFeed text.now) (λ parts. IsOneLine parts.0.now × (parts.0.now ++ parts.1.now ≡ text.now)) }
{
    let at = memchr(b'\n', text)?;
    Some(text.split_at(at + 1))
}

/// How many bytes a line has before its line feed.
pub fn length_before_line_feed(line: &[u8]) -> usize
    ensures { result ≡ length (before_line_feed line.now) }
{
    if !line.is_empty() && line[line.len() - 1] == b'\n' {
        line.len() - 1
    } else {
        line.len()
    }
}

/// The text without its last byte, if that is this byte.
fn without_last(text: &[u8], byte: u8) -> &[u8]
    ensures { result.now ≡ without_last byte text.now }
{
    match text {
        [front @ .., last] if *last == byte => front,
        _ => text,
    }
}

/// A line without its line feed and one carriage return before that.
pub fn without_line_end(line: &[u8]) -> &[u8]
    ensures { result.now ≡ without_last 13 (before_line_feed line.now) }
{
    without_last(without_last(line, b'\n'), b'\r')
}
