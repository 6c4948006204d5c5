//! Writing a header.

ghost use Rattle.std.specs.Prelude.{◌≡◌, ℕ, ◌≤◌, ◌<◌, ◌+◌, ◌/◌, ◌^◌, ◌++◌, IfOk, OnOk, List, length};
ghost use Rattle.byteorder.specs.Endian.{big_bytes};
ghost use Rattle.lct_header.specs.Extensions.{IsArea};
ghost use Rattle.lct_header.specs.HeaderView.{StartsWithHeader};
ghost use Rattle.lct_header.specs.Spelling.{word_of, written_length, spelling};

use crate::header::Header;
use crate::word::FirstWord;
use byteorder::{BigEndian, ByteOrder};
use std::alloc::{AllocError, Global};

/// The field CCI: one word of zeros.
const CONGESTION_CONTROL: [u8; 4] = [0; 4];

/// Writes a header with the widths of its numbers and with these extensions. C, PSI, CCI and the reserved bits are
/// zero.
#[tactic(auto, unfolding(crate::specs::Spelling::spelling))]
pub fn write(alloc: Global, header: &Header, area: &[u8]) -> Result<Vec<u8>, AllocError>
    requires extensions { IsArea area.now }
    requires room { written_length header.now area.now ≤ 1020 }
    ensures bytes { IfOk result (λ v. v.items ≡ spelling header.now area.now) }
    // Whatever bytes follow, they begin with this header and this area.
    ensures read_again { IfOk result (λ v. (rest : List ℕ) →
        StartsWithHeader (v.items ++ rest) (record { header = header.now; length = written_length header.now area.now; area = area.now })) }
{
    let word = word_of(header, area.len());
    let mut out = Vec::with_capacity(alloc, word.length())?;
    out.extend_from_slice(&word.to_bytes())?;
    out.extend_from_slice(&CONGESTION_CONTROL)?;
    push_number(&mut out, u128::from(header.tsi), header.tsi_bits / 8)?;
    push_number(&mut out, header.toi, header.toi_bits / 8)?;
    out.extend_from_slice(area)?;
    Ok(out)
}

/// The first word before an area of this length.
fn word_of(header: &Header, area: usize) -> FirstWord
    requires { 8 + header.now.tsi_bits / 8 + header.now.toi_bits / 8 + area ≤ 1020 }
    ensures { result ≡ word_of header.now area }
{
    let numbers = usize::from(header.tsi_bits / 8) + usize::from(header.toi_bits / 8);
    FirstWord {
        c: 0,
        s: header.tsi_bits / 32,
        o: header.toi_bits / 32,
        h: header.tsi_bits / 16 % 2,
        close_session: header.close_session,
        close_object: header.close_object,
        words: ((8 + numbers + area) / 4) as u8,
        codepoint: header.codepoint,
    }
}

/// Adds the number's lowest bytes, so many of them.
fn push_number(out: &mut Vec<u8>, number: u128, length: u8) -> Result<(), AllocError>
    requires most { length ≤ 16 }
    requires fits { number < 256 ^ length }
    ensures { OnOk result (out.new.items ≡ out.old.items ++ big_bytes length number) }
{
    if length == 0 {
        return Ok(());
    }
    let length = usize::from(length);
    let mut field = [0u8; 16];
    BigEndian::write_uint128(&mut field, number, length);
    out.extend_from_slice(&field[..length])
}
