//! Reading a header.

ghost use Rattle.std.specs.Prelude.{◌≡◌, ◌≤◌, IfOk, IfErr, Ok, Err, length};
ghost use Rattle.byteorder.specs.Endian.{big_number};
ghost use Rattle.lct_header.specs.declared.fault.HeaderFault.{HeaderFault};
ghost use Rattle.lct_header.specs.Word.{tsi_length, toi_length};
ghost use Rattle.lct_header.specs.Header.{header_of};
ghost use Rattle.lct_header.specs.HeaderView.{HeaderView, StartsWithHeader};
ghost use Rattle.lct_header.specs.Faults.{IsFirstFault};

use crate::area::first_fault;
use crate::fault::HeaderFault;
use crate::header::{Header, HeaderView};
use crate::word::FirstWord;
use byteorder::{BigEndian, ByteOrder};

/// The length of the first word.
const WORD_LENGTH: usize = 4;

/// Reads the header at the start of a datagram:
///
/// ```text
///  0                   1                   2                   3
///  0 1 2 3 4 5 6 7 8 9 0 1 2 3 4 5 6 7 8 9 0 1 2 3 4 5 6 7 8 9 0 1
/// +---------------------------------------------------------------+
/// |                          first word                           |
/// +---------------------------------------------------------------+
/// |                CCI, 32 * (C + 1) bits ..                      |
/// +---------------------------------------------------------------+
/// |                TSI, 32 * S + 16 * H bits ..                   |
/// +---------------------------------------------------------------+
/// |                TOI, 32 * O + 16 * H bits ..                   |
/// +---------------------------------------------------------------+
/// |                extensions, up to 4 * HDR_LEN bytes ..         |
/// +---------------------------------------------------------------+
/// ```
///
/// A datagram that begins with no header is refused with its first fault.
pub fn read(bytes: &[u8]) -> Result<HeaderView<'_>, HeaderFault>
    // What is read begins the bytes.
    ensures found { IfOk result (λ view. StartsWithHeader bytes.now view) }
    // What begins the bytes is read.
    ensures only { (view : HeaderView) → StartsWithHeader bytes.now view → result ≡ Ok view }
    // The fault is the first that holds.
    ensures refused { IfErr result (λ fault. IsFirstFault bytes.now fault) }
    // Bytes with a fault are refused.
    ensures refuses { (fault : HeaderFault) → IsFirstFault bytes.now fault → result ≡ Err fault }
{
    read_view(bytes)
}

fn read_view(bytes: &[u8]) -> Result<HeaderView<'_>, HeaderFault>
    ensures found { IfOk result (λ view. StartsWithHeader bytes.now view) }
    ensures refused { IfErr result (λ fault. IsFirstFault bytes.now fault) }
{
    if bytes.len() < WORD_LENGTH {
        return Err(HeaderFault::Short);
    }
    if bytes[0] / 16 != 1 {
        return Err(HeaderFault::Version);
    }
    let word = FirstWord::read(bytes);
    let tsi_start = WORD_LENGTH + word.cci_length();
    let toi_start = tsi_start + word.tsi_length();
    let fixed = toi_start + word.toi_length();
    let length = word.length();
    if length < fixed || bytes.len() < length {
        return Err(HeaderFault::LengthField);
    }
    let area = &bytes[fixed..length];
    if let Some(fault) = first_fault(area, fixed) {
        return Err(fault);
    }
    let header = header_of(
        &word,
        &bytes[tsi_start..toi_start],
        &bytes[toi_start..fixed],
    );
    Ok(HeaderView {
        header,
        length,
        area,
    })
}

/// The header with these bytes of TSI and TOI.
fn header_of(word: &FirstWord, tsi: &[u8], toi: &[u8]) -> Header
    requires tsi { length tsi.now ≡ tsi_length word.now }
    requires toi { length toi.now ≡ toi_length word.now }
    ensures { result ≡ header_of word.now tsi.now toi.now }
{
    Header {
        close_session: word.close_session,
        close_object: word.close_object,
        tsi: tsi_number(tsi),
        tsi_bits: (8 * tsi.len()) as u8,
        toi: toi_number(toi),
        toi_bits: (8 * toi.len()) as u8,
        codepoint: word.codepoint,
    }
}

fn tsi_number(bytes: &[u8]) -> u64
    requires { length bytes.now ≤ 8 }
    ensures { result ≡ big_number (length bytes.now) bytes.now }
{
    if bytes.is_empty() {
        0
    } else {
        BigEndian::read_uint(bytes, bytes.len())
    }
}

fn toi_number(bytes: &[u8]) -> u128
    requires { length bytes.now ≤ 16 }
    ensures { result ≡ big_number (length bytes.now) bytes.now }
{
    if bytes.is_empty() {
        0
    } else {
        BigEndian::read_uint128(bytes, bytes.len())
    }
}
