//! The values of options, from names and values in turn.

ghost use Rattle.std.specs.Prelude.{◌≡◌, ◌≢◌, map, true, None, IfOk, IfErr};
ghost use Rattle.clap.specs.Values.{kind_of};
ghost use Rattle.clap.specs.declared.error.kind.ErrorKind.TheVariants as kind;
ghost use Rattle.fcast_words.specs.Pairs.{map_of};
ghost use Rattle.fcast_words.specs.Shape.{has_shape};
ghost use Rattle.fcast_words.specs.Inner.Parser.{dashed};
ghost use Rattle.fcast_words.specs.Inner.Matches.{HasValues};
ghost use Rattle.fcast_words.specs.declared.fault.WordFault.TheVariants.{Usage};

use crate::fault::WordFault;
use crate::parser::parser;
use clap::error::ErrorKind;
use clap::{ArgMatches, Error};
use std::alloc::Global;

/// The values of these options, from words that are names and values in turn.
pub(crate) fn read_pairs<'a>(
    alloc: Global,
    name: &'a str,
    options: &'a [&'a str],
    words: &'a [&'a str],
) -> Result<ArgMatches<'a>, WordFault>
    requires { has_shape (map (λ s. s.now) words.now) ≡ true }
    ensures ok { IfOk result
        (HasValues (map (λ s. s.now) options.entry.now) (map (λ s. s.now) words.entry.now)) }
    ensures usage { IfErr result (λ e. e ≡ Usage
        → map_of (map dashed (map (λ s. s.now) options.entry.now))
        (map (λ s. s.now) words.entry.now) ≡ None) }
{
    let Ok(parser) = parser(alloc, name, options) else {
        return Err(WordFault::Memory);
    };
    match parser.try_get_matches_from(words) {
        Ok(matches) => Ok(matches),
        Err(error) => Err(fault_of(&error)),
    }
}

/// `clap` fails at an option that the command doesn't have, or for want of memory.
fn fault_of(error: &Error) -> WordFault
    ensures { result ≡ Usage → kind_of error.now ≢ kind.OutOfMemory }
{
    match error.kind() {
        ErrorKind::OutOfMemory => WordFault::Memory,
        _ => WordFault::Usage,
    }
}
