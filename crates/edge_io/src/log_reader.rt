//! The datagrams of a packet log.

ghost use Rattle.std.specs.Prelude.{◌≡◌, Option, None, length, drop, ◌+◌, ◌≤◌, ◌<◌, ◌^◌, nat_eq, slice_index, IfOk, OnOk, IsErr, IsTrue};
ghost use Rattle.std.specs.List.{starts_with};
ghost use Rattle.edge_io.specs.Faults.{Rose};
ghost use Rattle.edge_io.specs.Log.{magic, datagrams_of, torn_at, items_of, torn_from, stated};
ghost use Rattle.edge_io.specs.Nexts.{Answers, IsWithin};
ghost use Rattle.edge_io.specs.Stages.{datagrams_left, torn_place, IsKnown, Finds, IsShort};

use crate::fill::fill;
use crate::{Bytes, Datagrams, Failed, Next, Place};

/// The eight bytes at the front of a packet log.
pub const MAGIC: [u8; 8] = *b"FCASTLG1";

/// How far the log has been read. Places are counted in bytes from the start of the whole text.
#[derive(Clone, Copy)]
pub enum Stage {
    /// Nothing was read.
    Start,
    /// The next item begins at this place.
    AtItem(u64),
    /// The log is torn at this place.
    TornAt(u64),
    /// The source failed in the item that begins at this place.
    LostAt(u64),
}

/// What stands where an item should begin.
#[derive(Clone, Copy)]
pub enum Found {
    /// A whole item, whose datagram of so many bytes is in the buffer.
    Whole(usize),
    /// The end of the text.
    End,
    /// An item that isn't whole.
    Cut,
}

/// A source of the datagrams of a packet log, read from a source of bytes: the eight bytes
/// `FCASTLG1`, and then items, each a length of two bytes, big-endian, and so many bytes.
///
/// It takes either place alike. Once the source of bytes has failed, the log counts as torn where
/// the item that was being read begins, and no more is read.
#[derive(Drop)]
pub struct LogReader<B: Bytes> {
    /// The source of bytes.
    pub source: B,
    connected: Option<Place>,
    stage: Stage,
}

impl<B: Bytes> LogReader<B> {
    /// The datagrams of the log that these bytes are. Takes no memory.
    pub fn new(source: B) -> LogReader<B>
        ensures source { result.source ≡ source }
        ensures told { B.told source → ⟦<LogReader<B> as Datagrams>⟧.told result }
        ensures left { ⟦<LogReader<B> as Datagrams>⟧.left result ≡ datagrams_of (B.left source) }
        ensures torn { ⟦<LogReader<B> as Datagrams>⟧.torn result ≡ torn_at (B.left source) }
        ensures connected { ⟦<LogReader<B> as Datagrams>⟧.connected result ≡ None }
        ensures faults { ⟦<LogReader<B> as Datagrams>⟧.faults result ≡ B.faults source }
    {
        LogReader {
            source,
            connected: None,
            stage: Stage::Start,
        }
    }
}

impl<B: Bytes> Datagrams for LogReader<B> {
    ghost use Rattle.edge_io.specs.Stages.{datagrams_left, torn_place, IsKnown};

    ghost told = { λ s. B.told s.source × IsKnown s.stage (B.left s.source) };

    ghost left = { λ s. datagrams_left s.stage (B.left s.source) };

    ghost torn = { λ s. torn_place s.stage (B.left s.source) };

    ghost connected = { λ s. s.connected };

    ghost faults = { λ s. B.faults s.source };

    fn connect(&mut self, place: &Place) -> Result<(), Failed> {
        self.connected = Some(*place);
        Ok(())
    }

    fn next(&mut self, buffer: &mut [u8]) -> Next {
        let (stage, answer) = step(self.stage, &mut self.source, buffer);
        self.stage = stage;
        answer
    }
}

/// Reads on from this stage: the next stage, and the answer.
fn step<B: Bytes>(stage: Stage, source: &mut B, buffer: &mut [u8]) -> (Stage, Next)
    requires { 65535 ≤ length buffer.old }
    ensures within { IsWithin result.1 buffer.new }
    ensures answer { B.told source.old → IsKnown stage (B.left source.old) → Answers result.1 buffer.new
        (datagrams_left stage (B.left source.old)) (torn_place stage (B.left source.old))
        (datagrams_left result.0 (B.left source.new)) (torn_place result.0 (B.left source.new))
        (B.told source.new × IsKnown result.0 (B.left source.new)) }
    ensures rose { result.1 ≡ Next.Failed → Rose (B.faults source.old) (B.faults source.new) }
    ensures grows { B.faults source.old ≤ B.faults source.new }
{
    match stage {
        Stage::Start => step_in(source, buffer),
        Stage::AtItem(place) => step_on(place, source, buffer),
        Stage::TornAt(place) | Stage::LostAt(place) => (stage, Next::Torn(place)),
    }
}

/// Reads the magic and the first item.
fn step_in<B: Bytes>(source: &mut B, buffer: &mut [u8]) -> (Stage, Next)
    requires { 65535 ≤ length buffer.old }
    ensures within { IsWithin result.1 buffer.new }
    ensures answer { B.told source.old → Answers result.1 buffer.new
        (datagrams_of (B.left source.old)) (torn_at (B.left source.old))
        (datagrams_left result.0 (B.left source.new)) (torn_place result.0 (B.left source.new))
        (B.told source.new × IsKnown result.0 (B.left source.new)) }
    ensures rose { result.1 ≡ Next.Failed → Rose (B.faults source.old) (B.faults source.new) }
    ensures grows { B.faults source.old ≤ B.faults source.new }
{
    match read_magic(source, buffer) {
        Err(Failed) => (Stage::LostAt(0), Next::Failed),
        Ok(false) => (Stage::TornAt(0), Next::Torn(0)),
        Ok(true) => step_on(8, source, buffer),
    }
}

/// Reads the item that begins at this place.
fn step_on<B: Bytes>(place: u64, source: &mut B, buffer: &mut [u8]) -> (Stage, Next)
    requires { 65535 ≤ length buffer.old }
    ensures within { IsWithin result.1 buffer.new }
    ensures answer { B.told source.old → place + length (B.left source.old) < 2 ^ 64 → Answers result.1 buffer.new
        (items_of (B.left source.old)) (torn_from place (B.left source.old))
        (datagrams_left result.0 (B.left source.new)) (torn_place result.0 (B.left source.new))
        (B.told source.new × IsKnown result.0 (B.left source.new)) }
    ensures rose { result.1 ≡ Next.Failed → Rose (B.faults source.old) (B.faults source.new) }
    ensures grows { B.faults source.old ≤ B.faults source.new }
{
    match read_item(source, buffer) {
        Err(Failed) => (Stage::LostAt(place), Next::Failed),
        Ok(Found::End) => (Stage::AtItem(place), Next::End),
        Ok(Found::Cut) => (Stage::TornAt(place), Next::Torn(place)),
        Ok(Found::Whole(size)) => {
            let after = place.saturating_add(2 + size as u64);
            (Stage::AtItem(after), Next::Got(size))
        }
    }
}

/// Reads eight bytes, and says whether they are the magic.
fn read_magic<B: Bytes>(source: &mut B, buffer: &mut [u8]) -> Result<bool, Failed>
    requires { 65535 ≤ length buffer.old }
    ensures magic { IfOk result (λ is. B.told source.old → is ≡ starts_with nat_eq (B.left source.old) magic) }
    ensures rest { IfOk result (λ is. B.told source.old → IsTrue is → B.left source.new ≡ drop 8 (B.left source.old)) }
    ensures fewer { OnOk result (B.told source.old → length (B.left source.old) < 2 ^ 64) }
    ensures told { OnOk result (B.told source.old → B.told source.new) }
    ensures rose { IsErr result → Rose (B.faults source.old) (B.faults source.new) }
    ensures grows { B.faults source.old ≤ B.faults source.new }
{
    let got = fill(source, &mut buffer[..8])?;
    Ok(buffer[..got].starts_with(&MAGIC))
}

/// Reads an item: its length, and then its datagram to the front of the buffer.
fn read_item<B: Bytes>(source: &mut B, buffer: &mut [u8]) -> Result<Found, Failed>
    requires { 65535 ≤ length buffer.old }
    ensures short { IfOk result IsShort }
    ensures found { IfOk result (λ found. B.told source.old → Finds found buffer.new (B.left source.old) (B.left source.new)) }
    ensures told { OnOk result (B.told source.old → B.told source.new) }
    ensures rose { IsErr result → Rose (B.faults source.old) (B.faults source.new) }
    ensures grows { B.faults source.old ≤ B.faults source.new }
{
    let read = fill(source, &mut buffer[..2])?;
    if read == 0 {
        return Ok(Found::End);
    }
    if read == 1 {
        return Ok(Found::Cut);
    }
    let size = usize::from(stated_length(buffer));
    let got = fill(source, &mut buffer[..size])?;
    if got < size {
        return Ok(Found::Cut);
    }
    Ok(Found::Whole(size))
}

/// The length that the first two bytes state, big-endian.
fn stated_length(bytes: &[u8]) -> u16
    requires { 2 ≤ length bytes.now }
    ensures length { result ≡ stated bytes.now }
    ensures high { slice_index bytes.now 0 < 256 }
    ensures low { slice_index bytes.now 1 < 256 }
{
    u16::from_be_bytes([bytes[0], bytes[1]])
}
