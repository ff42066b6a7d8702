//! The words of the command line.
ghost use Rattle.std.specs.Prelude.{◌≡◌, ◌∷◌, ◌⊎◌, false, true, map, IfOk, IfErr};
ghost use Rattle.clap.specs.Words.{app_of, kind_of};
ghost use Rattle.session_loop.specs.Words.{are_refused, asked_by, items_asked, make_command, program_name, texts, Asks};

use clap::error::ErrorKind;
use clap::{Arg, ArgAction, Command, Error, value_parser};
use std::alloc::{AllocError, Global};

/// What the words ask for.
#[derive(Clone, Copy, Debug, PartialEq, Eq)]
pub(crate) enum Task {
    /// A session over the input.
    Session,
    /// A run over the made text of so many items.
    Made(u32),
}

/// Why words ask for nothing.
#[derive(Clone, Copy, Debug, PartialEq, Eq)]
pub(crate) enum WordsFault {
    Refused,
    NoMemory,
}

/// The command that reads the words.
fn make_command<'a>(alloc: Global) -> Result<Command<'a>, AllocError>
    ensures { IfOk result (λ c. app_of c ≡ make_command) }
{
    let make = Arg::new(alloc, "make")
        .long("make")
        .action(ArgAction::Set)
        .value_parser(value_parser!(u32).range(1..=20_000));
    Command::new(alloc, "ocaml_service").arg(make)
}

/// The words behind the program's name.
fn behind_name<'a>(alloc: Global, words: &'a [String]) -> Result<Vec<&'a str>, Error>
    ensures ok { IfOk result (λ v. map (λ s. s.now) v.items ≡ program_name ∷ texts words.entry.now) }
    ensures err { IfErr result (λ e. kind_of e ≡ ErrorKind.OutOfMemory) }
{
    let mut all = vec![in alloc; "ocaml_service"]?;
    for word in words {
        all.push(word.as_str())?;
    }
    Ok(all)
}

/// A made run where a number of items is given.
fn task_of(items: Option<u32>) -> Task
    ensures { asked_by result ≡ items }
{
    match items {
        Some(items) => Task::Made(items),
        None => Task::Session,
    }
}

/// What the words ask for, or the error that clap tells.
fn parsed(alloc: Global, words: &[String]) -> Result<Task, Error>
    ensures ok { IfOk result (λ t. (are_refused (texts words.now) ≡ false) × (asked_by t ≡ items_asked (texts words.now))) }
    ensures err { IfErr result (λ e. (kind_of e ≡ ErrorKind.OutOfMemory) ⊎ (are_refused (texts words.now) ≡ true)) }
{
    let all = behind_name(alloc, words)?;
    match make_command(alloc)?.try_get_matches_from(all.as_slice()) {
        Ok(matches) => Ok(task_of(matches.get_one::<u32>("make"))),
        Err(error) => Err(error),
    }
}

/// Reads the words, the program's name not among them.
pub(crate) fn read_words(alloc: Global, words: &[String]) -> Result<Task, WordsFault>
    ensures { Asks (texts words.now) result }
{
    match parsed(alloc, words) {
        Ok(task) => Ok(task),
        Err(error) => match error.kind() {
            ErrorKind::OutOfMemory => Err(WordsFault::NoMemory),
            _ => Err(WordsFault::Refused),
        },
    }
}
