//! The command, as `clap` parses it.
ghost use Rattle.std.specs.Prelude.{◌≡◌, Some, None, IfOk, IfErr, map};
ghost use Rattle.clap.specs.Words.{app_of, kind_of};
ghost use Rattle.iot_words.specs.Command.{command};
ghost use Rattle.iot_words.specs.Jobs.{job_of};
ghost use Rattle.iot_words.specs.declared.faults.WordsFault.TheVariants.{NoMemory, Refused};

use crate::faults::WordsFault;
use crate::jobs::{Job, chosen};
use clap::error::ErrorKind;
use clap::{Arg, ArgAction, Command, Error};
use std::alloc::{AllocError, Global};

/// The job that the words after the program's name name.
///
/// # Errors
///
/// - `NoMemory`: memory ran out.
/// - `Refused`: the words are none that the command takes, or name two jobs.
pub fn read_words(alloc: Global, words: &[&str]) -> Result<Job, WordsFault>
    ensures job { IfOk result (λ job. job_of (map (λ word. word.now) words.now) ≡ Some job) }
    ensures refused { IfErr result (λ fault. fault ≡ Refused → job_of (map (λ word. word.now) words.now) ≡ None) }
{
    let matches = match command(alloc)?.try_get_matches_from(words) {
        Ok(matches) => matches,
        Err(error) => return Err(fault_of(&error)),
    };
    match chosen(
        matches.get_flag("json"),
        matches.get_flag("save"),
        matches.get_flag("image"),
        matches.get_flag("upgrade"),
        matches.get_flag("audit"),
        matches.get_str("gen"),
    ) {
        Some(job) => Ok(job),
        None => Err(WordsFault::Refused),
    }
}

/// The command: a flag or an option for each job but the one without words.
fn command<'a>(alloc: Global) -> Result<Command<'a>, AllocError>
    ensures { IfOk result (λ made. app_of made ≡ command) }
{
    let json = Arg::new(alloc, "json")
        .long("json")
        .action(ArgAction::SetTrue);
    let number = Arg::new(alloc, "gen").long("gen").action(ArgAction::Set);
    let save = Arg::new(alloc, "save")
        .long("save")
        .action(ArgAction::SetTrue);
    let image = Arg::new(alloc, "image")
        .long("image")
        .action(ArgAction::SetTrue);
    let upgrade = Arg::new(alloc, "upgrade")
        .long("upgrade")
        .action(ArgAction::SetTrue);
    let audit = Arg::new(alloc, "audit")
        .long("audit")
        .action(ArgAction::SetTrue);
    Command::new(alloc, "iot")
        .no_binary_name(true)
        .disable_help_flag(true)
        .arg(json)?
        .arg(number)?
        .arg(save)?
        .arg(image)?
        .arg(upgrade)?
        .arg(audit)
}

/// The fault that a failed parse is.
fn fault_of(error: &Error) -> WordsFault
    ensures { kind_of error.now ≡ ErrorKind.OutOfMemory → result ≡ NoMemory }
{
    match error.kind() {
        ErrorKind::OutOfMemory => WordsFault::NoMemory,
        _ => WordsFault::Refused,
    }
}
