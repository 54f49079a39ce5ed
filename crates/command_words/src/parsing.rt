ghost use Rattle.std.specs.Prelude.{◌≡◌, map, false, IfOk, string_bytes};
ghost use Rattle.std.specs.List.{list_any};
ghost use Rattle.clap.specs.Simple.{app_of};
ghost use Rattle.clap.specs.Walk.{rows_of};
ghost use Rattle.clap.specs.Matches.{found_of};
ghost use Rattle.command_words.specs.Grammar.{mode_of};
ghost use Rattle.command_words.specs.Command.{Answers, is_dashed, mode_in, words_app};

use crate::asked::{asked_by, asked_of};
use crate::words::{Mode, WordFault};
use clap::error::ErrorKind;
use clap::{Arg, ArgMatches, Command};
use std::alloc::{AllocError, Global};

/// Whether a word begins with a hyphen. `clap` would take `--` for the end of the options, and leave it out.
pub(crate) fn has_dash(words: &[String]) -> bool
    ensures { result ≡ list_any (λ word. is_dashed (string_bytes word)) words.now }
{
    words.iter().any(|word| is_dashed(word.as_str()))
}

/// Whether the word begins with a hyphen.
fn is_dashed(word: &str) -> bool
    ensures { result ≡ is_dashed word.now }
{
    match word.as_bytes().first() {
        Some(byte) => *byte == b'-',
        None => false,
    }
}

/// What words without a hyphen in front ask for. `NoMemory` comes only where they ask for something.
pub(crate) fn read_plain(alloc: Global, words: &[String]) -> Result<Mode, WordFault>
    requires { list_any (λ word. is_dashed (string_bytes word)) words.now ≡ false }
    ensures { Answers (mode_of (map string_bytes words.now)) result }
{
    match simple_command(alloc) {
        Ok(command) => parsed(command, words),
        Err(_) => unread(words),
    }
}

/// A first word, which has to be there, and up to two words behind it.
fn simple_command<'a>(alloc: Global) -> Result<Command<'a>, AllocError>
    ensures { IfOk result (λ command. app_of command ≡ words_app) }
{
    let mode = Arg::new(alloc, "mode").required(true);
    let rest = Arg::new(alloc, "rest").num_args(0..=2);
    Command::new(alloc, "grape")
        .no_binary_name(true)
        .disable_help_flag(true)
        .arg(mode)?
        .arg(rest)
}

/// What `clap` makes of words without a hyphen in front.
fn parsed<'a>(command: Command<'a>, words: &'a [String]) -> Result<Mode, WordFault>
    requires command { app_of command ≡ words_app }
    requires plain { list_any (λ word. is_dashed (string_bytes word)) words.now ≡ false }
    ensures { Answers (mode_of (map string_bytes words.now)) result }
{
    match command.try_get_matches_from(words) {
        Ok(matches) => matched(&matches).ok_or(WordFault::Bad),
        Err(error) => {
            if error.kind() == ErrorKind::OutOfMemory {
                unread(words)
            } else {
                Err(WordFault::Bad)
            }
        }
    }
}

/// What the values ask for that `clap` found.
fn matched(matches: &ArgMatches) -> Option<Mode>
    ensures { result ≡ mode_in (rows_of (found_of matches.now)) }
{
    let mode = matches.get_str("mode")?;
    match matches.get_raw("rest") {
        Some(rest) => asked_by(mode, rest),
        None => asked_by::<String>(mode, &[]),
    }
}

/// Where `clap` had no memory: words that ask for nothing are refused all the same.
fn unread(words: &[String]) -> Result<Mode, WordFault>
    ensures { Answers (mode_of (map string_bytes words.now)) result }
{
    match asked_of(words) {
        Some(_) => Err(WordFault::NoMemory),
        None => Err(WordFault::Bad),
    }
}
