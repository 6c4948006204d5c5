//! The parser of a command's options.

ghost use Rattle.std.specs.Prelude.{◌≡◌, [], map, false, IfOk};
ghost use Rattle.clap.specs.Walk.{rule_of};
ghost use Rattle.clap.specs.Simple.{app_of, with_rule};
ghost use Rattle.fcast_words.specs.Inner.Parser.{option_rule, options_app};

use clap::{Arg, ArgAction, Command};
use std::alloc::{AllocError, Global};

/// The parser of a command that has these options, each with one value. It knows no help words.
pub(crate) fn parser<'a>(
    alloc: Global,
    name: &'a str,
    options: &'a [&'a str],
) -> Result<Command<'a>, AllocError>
    ensures { IfOk result (λ r.
        app_of r ≡ options_app name.entry.now (map (λ s. s.now) options.entry.now)) }
{
    let mut parser = bare(alloc, name);
    for option in options {
        parser = with_option(alloc, parser, option)?;
    }
    Ok(parser)
}

fn bare<'a>(alloc: Global, name: &'a str) -> Command<'a>
    ensures { app_of result ≡ options_app name.entry.now [] }
{
    Command::new(alloc, name)
        .no_binary_name(true)
        .disable_help_flag(true)
}

fn with_option<'a>(
    alloc: Global,
    parser: Command<'a>,
    name: &'a str,
) -> Result<Command<'a>, AllocError>
    ensures { IfOk result (λ r.
        app_of r ≡ with_rule (app_of parser.entry) (option_rule name.entry.now)) }
{
    parser.arg(option(alloc, name))
}

fn option<'a>(alloc: Global, name: &'a str) -> Arg<'a>
    ensures rule { rule_of result ≡ option_rule name.entry.now }
    ensures local { result.global ≡ false }
{
    Arg::new(alloc, name).long(name).action(ArgAction::Set)
}
