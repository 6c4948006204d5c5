//! The shape of options: names and values in turn, no name twice.

ghost use Rattle.std.specs.Prelude.{◌≡◌};
ghost use Rattle.fcast_words.specs.Pairs as pairs;
ghost use Rattle.fcast_words.specs.Shape as shape;
ghost use Rattle.fcast_words.specs.Inner.Scan as scan;

use meta_text::Label;

/// Says whether the words are options' names and their values in turn, no name twice.
pub(crate) fn has_shape(words: &[Label]) -> bool
    ensures { result ≡ shape.has_shape words.now }
{
    scan(words)
}

fn scan(words: &[Label]) -> bool
    ensures { result ≡ scan.scan words.now }
{
    let mut place: usize = 0;
    while place < words.len() {
        if words.len() - place < 2 {
            return false;
        }
        let name = words[place].as_str();
        let value = words[place + 1].as_str();
        if !is_name(name.as_bytes()) || !is_value(value.as_bytes()) {
            return false;
        }
        if has_name(name, &words[place + 2..]) {
            return false;
        }
        place += 2;
    }
    true
}

/// Says whether the name is one of the names among these words.
fn has_name(name: &str, words: &[Label]) -> bool
    ensures { result ≡ scan.has_name name.now words.now }
{
    let mut place: usize = 0;
    while place < words.len() {
        if words[place].as_str() == name {
            return true;
        }
        if words.len() - place < 2 {
            return false;
        }
        place += 2;
    }
    false
}

/// A name is `--` and at least one byte more; the form `--name=value` is none.
fn is_name(word: &[u8]) -> bool
    ensures { result ≡ shape.is_name word.now }
{
    word.len() > 2 && word[0] == b'-' && word[1] == b'-' && !word.contains(&b'=')
}

fn is_value(word: &[u8]) -> bool
    ensures { result ≡ pairs.is_value word.now }
{
    match word.first() {
        None => false,
        Some(first) => !(*first == b'-' || *first == b'+'),
    }
}
