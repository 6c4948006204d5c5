//! The words of a command line, read as a command.

ghost use Rattle.std.specs.Prelude.{◌≡◌, Some, None, true, map, option_and_then, IfOk, IfErr};
ghost use Rattle.fcast_words.specs.Pairs.{map_of};
ghost use Rattle.fcast_words.specs.Shape.{has_shape, is_line};
ghost use Rattle.fcast_words.specs.Table.{options_of};
ghost use Rattle.fcast_words.specs.Words.{command_of, command_with};
ghost use Rattle.fcast_words.specs.declared.fault.WordFault.TheVariants.{Memory, Usage};

use crate::command::Command;
use crate::command_word::{CommandWord, command_named, options_of};
use crate::commands::command_with;
use crate::fault::WordFault;
use crate::pairs::read_pairs;
use crate::shape::has_shape;
use meta_text::Label;
use std::alloc::{AllocError, Global};

/// The command that the words are. The first word is the command, and the others are its options,
/// each as a name and a value.
///
/// # Errors
///
/// `Usage` where the words are no command. `Memory` for want of memory, and only where the first word
/// names a command and the others are names and values in turn.
pub fn read_words(alloc: Global, words: &[Label]) -> Result<Command, WordFault>
    ensures ok { IfOk result (λ c. command_of words.now ≡ Some c) }
    ensures usage { IfErr result (λ e. e ≡ Usage → command_of words.now ≡ None) }
    ensures memory { IfErr result (λ e. e ≡ Memory → is_line words.now ≡ true) }
{
    let Some((name, rest)) = words.split_first() else {
        return Err(WordFault::Usage);
    };
    let Some(word) = command_named(name.as_str()) else {
        return Err(WordFault::Usage);
    };
    read_options(alloc, word, rest)
}

/// The command of this word with these options.
fn read_options(alloc: Global, word: CommandWord, words: &[Label]) -> Result<Command, WordFault>
    ensures ok { IfOk result (λ c.
        option_and_then (command_with word) (map_of (options_of word) words.now) ≡ Some c) }
    ensures usage { IfErr result (λ e. e ≡ Usage
        → option_and_then (command_with word) (map_of (options_of word) words.now) ≡ None) }
    ensures memory { IfErr result (λ e. e ≡ Memory → has_shape words.now ≡ true) }
{
    let options = options_of(word);
    // More words can be no map, and so the search for names that stand twice is short.
    if words.len() > 2 * options.len() {
        return Err(WordFault::Usage);
    }
    if !has_shape(words) {
        return Err(WordFault::Usage);
    }
    let texts = texts_of(alloc, words)?;
    let matches = read_pairs(alloc, "fcast", options, texts.as_slice())?;
    command_with(alloc, word, &matches)
}

fn texts_of<'a>(alloc: Global, words: &'a [Label]) -> Result<Vec<&'a str>, AllocError>
    ensures { IfOk result (λ v. map (λ s. s.now) v.items ≡ words.now) }
{
    let mut texts = Vec::new(alloc);
    for word in words {
        texts.push(word.as_str())?;
    }
    Ok(texts)
}
