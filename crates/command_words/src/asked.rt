ghost use Rattle.std.specs.Prelude.{◌≡◌, ◌∷◌, map, string_bytes};
ghost use Rattle.command_words.specs.Grammar.{mode_of, generated};

use crate::words::Mode;
use grape_port::read_number;
use std::convert::AsStr;

/// The most vertices of a generated graph.
const MAX_VERTICES: u64 = 1_000_000;

/// What words ask for.
pub(crate) fn asked_of(words: &[String]) -> Option<Mode>
    ensures { result ≡ mode_of (map string_bytes words.now) }
{
    match words {
        [] => None,
        [mode, rest @ ..] => asked_by(mode.as_str(), rest),
    }
}

/// What a first word asks for, with the words behind it.
pub(crate) fn asked_by<S: AsStr>(mode: &str, rest: &[S]) -> Option<Mode>
    ensures { result ≡ mode_of (mode.now ∷ map S.text rest.now) }
{
    match rest {
        [] if mode == "run" => Some(Mode::Run),
        [] if mode == "resume" => Some(Mode::Resume),
        [vertices, number] if mode == "demo" => generated_by(vertices.as_str(), number.as_str()),
        _ => None,
    }
}

/// The graph that two words behind `demo` ask for.
fn generated_by(vertices: &str, number: &str) -> Option<Mode>
    ensures { result ≡ generated vertices.now number.now }
{
    let vertices = read_number(vertices.as_bytes())?;
    let number = read_number(number.as_bytes())?;
    if vertices == 0 || vertices > MAX_VERTICES {
        return None;
    }
    let vertices = vertices as u32;
    Some(Mode::Demo { vertices, number })
}
