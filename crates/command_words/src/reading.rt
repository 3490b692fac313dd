// The reader of the words of a command.
ghost use Rattle.std.specs.Prelude.{◌≡◌, map, IfOk, MatchOption};
ghost use Rattle.std.specs.String.{string_bytes};
ghost use Rattle.std.specs.List.{list_all};
ghost use Rattle.command_words.specs.Commands.{asks_for_help, is_operand, IsCommand, IsNoCommand};
ghost use Rattle.command_words.specs.Laws.{OneCommand, OneScript};

use crate::commands::Command;
use crate::forms::image_tool;
use crate::found::found_command;
use clap::error::ErrorKind;
use std::alloc::{AllocError, Global};

fn is_operand(word: &str) -> bool
    ensures { result ≡ is_operand word.now }
{
    !word.is_empty() && !word.starts_with('-')
}

fn are_operands(words: &[String]) -> bool
    ensures { result ≡ list_all is_operand (map string_bytes words.now) }
{
    words.iter().all(|word| is_operand(word.as_str()))
}

fn asks_for_help(words: &[String]) -> bool
    ensures { result ≡ asks_for_help (map string_bytes words.now) }
{
    match words.first() {
        Some(word) => word.as_str() == "help",
        None => false,
    }
}

/// Reads the words of a command, without the program's own name; `None` if they are no command. The
/// only error is that memory ran out.
#[inline(never)]
pub fn read_words<'a>(alloc: Global, words: &'a [String]) -> Result<Option<Command<'a>>, AllocError>
    ensures { IfOk result
        (λ command. MatchOption command (IsNoCommand (map string_bytes words.now))
        (IsCommand (map string_bytes words.now))) }
{
    if asks_for_help(words) || !are_operands(words) {
        return Ok(None);
    }
    match image_tool(alloc)?.try_get_matches_from(words) {
        Ok(matches) => Ok(found_command(&matches)),
        Err(error) => match error.kind() {
            ErrorKind::OutOfMemory => Err(AllocError),
            _ => Ok(None),
        },
    }
}

/// Words are at most one command.
pub fn one_command()
    ensures words { OneCommand }
    ensures numbers { OneScript }
{}
