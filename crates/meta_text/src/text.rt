//! Which texts are names and values, and texts without the blanks at their ends.

ghost use Rattle.std.specs.Prelude.{◌≡◌, ◌↔◌, IsTrue};
ghost use Rattle.std.specs.List.{list_all};
ghost use Rattle.meta_text.specs.Text as specs;
ghost use Rattle.meta_text.specs.Text.{IsName, IsValue};

/// The bytes that a name may have beside ASCII letters and digits.
const NAME_MARKS: &[u8; 15] = b"!#$%&'*+-.^_`|~";

/// Says whether a text is a name (a token of RFC 7230, section 3.2.6): it isn't empty and has only
/// ASCII letters, digits and ``!#$%&'*+-.^_`|~``.
pub fn is_name(text: &str) -> bool
    ensures { IsTrue result ↔ IsName text.now }
{
    !text.is_empty() && has_name_bytes(text.as_bytes())
}

fn has_name_bytes(bytes: &[u8]) -> bool
    ensures { result ≡ list_all specs.is_name_byte bytes.now }
{
    bytes.iter().all(|b| is_name_byte(*b))
}

fn is_name_byte(b: u8) -> bool
    ensures { result ≡ specs.is_name_byte b }
{
    b.is_ascii_alphanumeric() || NAME_MARKS.contains(&b)
}

/// Says whether a text is a value: it has no control character other than the tab, and no space or tab
/// at either end.
pub fn is_value(text: &str) -> bool
    ensures { IsTrue result ↔ IsValue text.now }
{
    is_clean(text) && trimmed(text.as_bytes()).len() == text.len()
}

/// Says whether a text has no control character other than the tab.
pub(crate) fn is_clean(text: &str) -> bool
    ensures { result ≡ specs.is_clean text.now }
{
    has_value_bytes(text.as_bytes())
}

fn has_value_bytes(bytes: &[u8]) -> bool
    ensures { result ≡ list_all specs.is_value_byte bytes.now }
{
    bytes
        .iter()
        .all(|b| (*b == b'\t' || *b >= 0x20) && *b != 0x7F)
}

fn is_blank(b: u8) -> bool
    ensures { result ≡ specs.is_blank b }
{
    b == b' ' || b == b'\t'
}

/// The bytes without the spaces and tabs at the two ends.
pub(crate) fn trimmed(bytes: &[u8]) -> &[u8]
    ensures { result.now ≡ specs.trimmed bytes.now }
{
    without_trailing(without_leading(bytes))
}

fn without_leading(bytes: &[u8]) -> &[u8]
    ensures { result.now ≡ specs.without_leading bytes.now }
{
    let mut rest = bytes;
    while let [first, after @ ..] = rest {
        if !is_blank(*first) {
            break;
        }
        rest = after;
    }
    rest
}

fn without_trailing(bytes: &[u8]) -> &[u8]
    ensures { result.now ≡ specs.without_trailing bytes.now }
{
    let mut rest = bytes;
    while let [before @ .., last] = rest {
        if !is_blank(*last) {
            break;
        }
        rest = before;
    }
    rest
}
