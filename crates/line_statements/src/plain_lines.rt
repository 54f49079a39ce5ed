ghost use Rattle.std.specs.Prelude.{◌≡◌, ◌≤◌, ◌∷◌, true, length, take, IfSome};
ghost use Rattle.std.specs.List.{list_all};
ghost use Rattle.grape_port.specs.Decimal.{is_digit, digits_value};
ghost use Rattle.line_statements.specs.PlainLines.{BeginsWithNumber, SaysEdge};

use graph_core::Edge;

/// The most digits of a number that is written plainly.
const MOST_DIGITS: usize = 10;

/// The edge at the front of a text, and how many bytes its line has, where that line is written plainly: two or three
/// numbers of one to ten digits that are below 2^32, one space between two, and a line feed right behind the last. `None`
/// says nothing of the line. It is read byte by byte, and nothing behind it is looked at.
pub fn plain_edge(text: &[u8]) -> Option<(Edge, usize)>
    ensures within { IfSome result (λ found. found.1 ≤ length text.now) }
    ensures says { IfSome result (λ found. SaysEdge (take found.1 text.now) found.0) }
{
    let (from, rest) = plain_number(text)?;
    let (to, rest) = plain_number(behind(rest, b' ')?)?;
    if let Some(others) = behind(rest, b'\n') {
        let edge = Edge {
            from,
            to,
            weight: 1,
        };
        return Some((edge, text.len() - others.len()));
    }
    let (weight, rest) = plain_number(behind(rest, b' ')?)?;
    let others = behind(rest, b'\n')?;
    let edge = Edge { from, to, weight };
    Some((edge, text.len() - others.len()))
}

/// The number at the front of a text, of one to ten digits and below 2^32, and what stands behind these digits.
fn plain_number(text: &[u8]) -> Option<(u32, &[u8])>
    ensures { IfSome result (λ found. BeginsWithNumber text.now found.0 found.1.now) }
{
    let (value, count) = leading_digits(text);
    if count == 0 {
        return None;
    }
    let Ok(number) = u32::try_from(value) else {
        return None;
    };
    let (_, rest) = text.split_at(count);
    Some((number, rest))
}

/// What the digits at the front of a text stand for, at most ten of them, and how many they are.
fn leading_digits(text: &[u8]) -> (u64, usize)
    ensures few { result.1 ≤ 10 }
    ensures within { result.1 ≤ length text.now }
    ensures digits { list_all is_digit (take result.1 text.now) ≡ true }
    ensures value { digits_value (take result.1 text.now) ≡ result.0 }
{
    let most = text.len().min(MOST_DIGITS);
    let mut value = 0;
    'digits: for at in 0..most {
        let byte = text[at];
        if !byte.is_ascii_digit() {
            return (value, at);
        }
        value = 10 * value + u64::from(byte - b'0');
    }
    (value, most)
}

/// What stands behind this byte, where a text begins with it.
fn behind(text: &[u8], byte: u8) -> Option<&[u8]>
    ensures { IfSome result (λ rest. text.now ≡ byte ∷ rest.now) }
{
    let (first, rest) = text.split_first()?;
    if *first == byte { Some(rest) } else { None }
}
