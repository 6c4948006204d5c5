//! Reading a datagram.

ghost use Rattle.std.specs.Prelude.{◌≡◌, Result, Ok, Err, IfOk, IfErr, List, ℕ, [], ◌∷◌, ◌<◌, ◌≤◌, length, drop, slice_index};
ghost use Rattle.byteorder.specs.Endian.{big_number};
ghost use Rattle.wire_bytes.specs.FirstFault.{first_fault};
ghost use Rattle.lct_header.specs.Extensions.{AreExtensions};
ghost use Rattle.alc_packet.specs.declared.datagram.Datagram.{Datagram};
ghost use Rattle.alc_packet.specs.declared.refusal.Refusal.{Refusal};
ghost use Rattle.alc_packet.specs.Pieces.{Pieces, fti_contents};
ghost use Rattle.alc_packet.specs.Refusal.{other_scheme, no_toi};
ghost use Rattle.alc_packet.specs.Answer.{Says};
ghost use Rattle.alc_packet.specs.Reply.{reply};
ghost use Rattle.alc_packet.specs.Inner.Reading.{only_of, reading};

use crate::datagram::{CODEPOINT, Datagram, Packet};
use crate::making::first_refusal;
use crate::refusal::Refusal;
use byteorder::{BigEndian, ByteOrder};
use lct_header::{Extensions, Header, extensions};
use oti_blocks::{FTI_TYPE, read_fti};

/// The length in bytes of the FEC Payload ID.
const PAYLOAD_ID: usize = 4;

/// Reads a datagram. A packet with one symbol is (RFC 5775, section 2; RFC 5510, section 4):
///
/// ```text
/// +---------------------------------------------------------------+
/// |              LCT header, with exactly one EXT_FTI ..          |
/// +-----------------------------------------------+---------------+
/// |        source block number (SBN), 24          |    ESI, 8     |
/// +-----------------------------------------------+---------------+
/// |                      encoding symbol ..                       |
/// +---------------------------------------------------------------+
/// ```
///
/// A datagram that ends behind its header is a control; the header's codepoint, TOI and extensions say nothing then.
/// Every other datagram is refused with the first of the refusals that hold, in the order of `Refusal`.
pub fn read(bytes: &[u8]) -> Result<Datagram<'_>, Refusal>
    // What is answered is what the datagram says.
    ensures says { Says bytes.now result }
    // What the datagram says is answered.
    ensures only { (answer : Result Datagram Refusal) → Says bytes.now answer → result ≡ answer }
    // The same by computing.
    ensures exact { result ≡ reply bytes.now }
{
    datagram_of(bytes)
}

fn datagram_of(bytes: &[u8]) -> Result<Datagram<'_>, Refusal>
    ensures { Says bytes.now result }
{
    let view = lct_header::read(bytes)?;
    let header = view.header;
    let payload = &bytes[view.length..];
    if payload.is_empty() {
        let tsi = header.tsi;
        let close = header.close_session;
        return Ok(Datagram::Control { tsi, close });
    }
    let packet = read_packet(&header, extensions(&view), payload)?;
    Ok(Datagram::Symbol(packet))
}

/// The packet with this header, these extensions and this payload.
fn read_packet<'a>(
    header: &Header,
    extensions: Extensions<'a>,
    payload: &'a [u8],
) -> Result<Packet<'a>, Refusal>
    ensures { let x : Pieces = record { header = header.now; ftis = fti_contents extensions.entry; payload = payload.now } in result ≡ reading x }
{
    if let Some(refusal) = header_refusal(header) {
        return Err(refusal);
    }
    let content = only_fti(extensions)?;
    let oti = read_fti(content)?;
    let (sbn, esi, symbol) = payload_id(payload)?;
    if let Some(refusal) = first_refusal(&oti, sbn, esi, symbol) {
        return Err(refusal);
    }
    Ok(Packet {
        tsi: header.tsi,
        toi: header.toi,
        oti,
        sbn,
        esi,
        symbol,
        close: header.close_session,
    })
}

/// The first refusal of a packet with this header.
fn header_refusal(header: &Header) -> Option<Refusal>
    ensures { (ftis : List (List ℕ)) (payload : List ℕ) →
        let x : Pieces = record { header = header.now; ftis = ftis; payload = payload } in result ≡ first_fault (other_scheme x ∷ no_toi x ∷ []) }
{
    if header.codepoint != CODEPOINT {
        let detail = u64::from(header.codepoint);
        return Some(Refusal::OtherScheme { detail });
    }
    if header.toi_bits == 0 {
        return Some(Refusal::NoToi);
    }
    None
}

/// The content of the only EXT_FTI.
fn only_fti<'a>(extensions: Extensions<'a>) -> Result<&'a [u8], Refusal>
    ensures found { IfOk result (λ content. only_of (fti_contents extensions.entry) ≡ Ok content.now) }
    ensures refused { IfErr result (λ refusal. only_of (fti_contents extensions.entry) ≡ Err refusal) }
{
    let mut found: Option<&'a [u8]> = None;
    for extension in extensions {
        if extension.het == FTI_TYPE {
            if found.is_some() {
                return Err(Refusal::FtiTwice);
            }
            found = Some(extension.content);
        }
    }
    found.ok_or(Refusal::NoFti)
}

/// The payload's SBN, ESI and symbol.
fn payload_id(payload: &[u8]) -> Result<(u32, u8, &[u8]), Refusal>
    ensures long { IfOk result (λ id. 4 ≤ length payload.now) }
    ensures sbn { IfOk result (λ id. id.0 ≡ big_number 3 payload.now) }
    ensures esi { IfOk result (λ id. id.1 ≡ slice_index payload.now 3) }
    ensures symbol { IfOk result (λ id. id.2.now ≡ drop 4 payload.now) }
    ensures refused { IfErr result (λ refusal. (refusal ≡ Refusal.NoPayloadId) × (length payload.now < 4)) }
{
    if payload.len() < PAYLOAD_ID {
        return Err(Refusal::NoPayloadId);
    }
    let sbn = BigEndian::read_u24(payload);
    Ok((sbn, payload[3], &payload[PAYLOAD_ID..]))
}
