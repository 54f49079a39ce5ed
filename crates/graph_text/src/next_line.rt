ghost use Rattle.std.specs.Prelude.{◌≡◌, ◌++◌, MatchOption};
ghost use Rattle.text_lines.specs.Lines.{HasNoLineFeed, IsOneLine};
ghost use Rattle.graph_text.specs.Reader.{DoesSay};

use graph_core::Edge;
use line_statements::plain_edge;
use text_lines::split_line;

/// The bytes up to the first line feed, with it, those behind it, and the edge that the first are known to say. A line that
/// is written plainly is read in one pass.
pub(crate) fn next_line(text: &[u8]) -> Option<(&[u8], &[u8], Option<Edge>)>
    ensures { MatchOption result (HasNoLineFeed text.now) (λ parts. IsOneLine parts.0.now × (parts.0.now ++ parts.1.now ≡ text.now) × DoesSay parts.0.now parts.2) }
{
    if let Some((edge, end)) = plain_edge(text) {
        let (line, others) = text.split_at(end);
        return Some((line, others, Some(edge)));
    }
    let (line, others) = split_line(text)?;
    Some((line, others, None))
}
