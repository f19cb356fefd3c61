//! The command by which `clap` reads the words.

ghost use Rattle.std.specs.Prelude.{◌≡◌, false, IfOk};
ghost use Rattle.clap.specs.Simple.{app_of};
ghost use Rattle.clap.specs.Walk.{rule_of};
ghost use Rattle.program_words.specs.Commands.{option_rule, words_app};

use clap::{Arg, ArgAction, Command};
use std::alloc::{AllocError, Global};

/// An option whose value is a number.
fn option<'a>(alloc: Global, name: &'a str, absent: &'a str, explained: &'a str) -> Arg<'a>
    ensures rule { rule_of result ≡ option_rule name.now absent.now }
    ensures local { result.global ≡ false }
{
    Arg::new(alloc, name)
        .long(name)
        .value_name("N")
        .help(explained)
        .default_value(absent)
}

/// `[--seed N] [--count N] MODE NAME..`: an option stands at most once and unshortened, and none asks for help.
pub(crate) fn command<'a>(alloc: Global) -> Result<Command<'a>, AllocError>
    ensures { IfOk result (λ command. app_of command ≡ words_app) }
{
    Command::new(alloc, "laitsjop")
        .no_binary_name(true)
        .disable_help_flag(true)
        .disable_version_flag(true)
        .arg(option(alloc, "seed", "1", "for schedule and load: 0 to 2147483647"))?
        .arg(option(alloc, "count", "100", "for load: its steps, 1 to 10000"))?
        .arg(
            Arg::new(alloc, "MODE")
                .help("init, serve, schedule, checkpoint, dump or load")
                .required(true),
        )?
        .arg(
            Arg::new(alloc, "NAME")
                .help("for serve and schedule: 1 to 16 different names of scripts")
                .action(ArgAction::Append),
        )
}

/// What the words may be, as `clap` explains it: some lines, each with its end. The one error is want of memory.
pub fn usage(alloc: Global) -> Result<String, AllocError> {
    let mut command = command(alloc)?;
    command.render_help()
}
