//! The words as `clap` reads them.
ghost use Rattle.std.specs.Prelude.{◌≡◌, IfOk, IfErr, true, map, string_bytes};
ghost use Rattle.clap.specs.Words.{kind_of};
ghost use Rattle.clap.specs.Simple.{app_of, HasMatchesOf};
ghost use Rattle.clap.specs.Takes.{takes};
ghost use Rattle.command_words.specs.Commands.{words_app};

use clap::error::ErrorKind;
use clap::{Arg, ArgMatches, Command, Error};
use std::alloc::{AllocError, Global};

/// The options and the operand.
fn command_line<'a>(alloc: Global) -> Result<Command<'a>, AllocError>
    ensures { IfOk result (λ c. app_of c ≡ words_app) }
{
    Command::new(alloc, "fluxion")
        .no_binary_name(true)
        .disable_help_flag(true)
        .disable_version_flag(true)
        .arg(Arg::new(alloc, "horizon").long("horizon"))?
        .arg(Arg::new(alloc, "filters").long("filters"))?
        .arg(Arg::new(alloc, "jobspec").long("jobspec"))?
        .arg(Arg::new(alloc, "graph").required(true))
}

/// What the words give, as `clap` reads them.
pub(crate) fn matches_of<'a>(alloc: Global, words: &'a [String]) -> Result<ArgMatches<'a>, Error>
    ensures matches { IfOk result (HasMatchesOf words_app (map string_bytes words.entry.now)) }
    ensures err { IfErr result (λ e. takes words_app (map string_bytes words.entry.now) ≡ true →
        kind_of e ≡ ErrorKind.OutOfMemory) }
{
    command_line(alloc)?.try_get_matches_from(words)
}
