//! What the link of a drill delivers, and the row steps that this takes. It goes by docs/FORMATS.md, and has nothing
//! from the drill itself.
use alc_packet::{Datagram, Packet, read};
use oti_blocks::Oti;
use std::alloc::{AllocError, Global};
use std::collections::BTreeMap;

/// The next state of the generator.
pub fn next(state: u64) -> u64 {
    state
        .wrapping_mul(6_364_136_223_846_793_005)
        .wrapping_add(1_442_695_040_888_963_407)
}

/// What is delivered, in order, of so many datagrams that are sent in this state of the generator. Each is named by its
/// place among them, so that none is copied.
pub fn deliveries(alloc: Global, sent: usize, state: u64) -> Result<Vec<usize>, AllocError> {
    let (mut places, state) = passed(alloc, sent, state)?;
    shuffle(places.as_mut_slice(), state);
    Ok(places)
}

/// The places of the datagrams that pass, and the generator's state behind them.
fn passed(alloc: Global, sent: usize, start: u64) -> Result<(Vec<usize>, u64), AllocError> {
    let mut state = start;
    let mut places = Vec::new(alloc);
    for place in 0..sent {
        state = next(state);
        for _copy in 0..copies(state >> 32) {
            places.push(place)?;
        }
    }
    Ok((places, state))
}

/// How many times a datagram is delivered at this draw.
fn copies(draw: u64) -> u8 {
    if draw % 3 == 0 {
        0
    } else if draw % 8 == 1 {
        2
    } else {
        1
    }
}

/// Puts the places in another order: each, from the last one on, is exchanged with a drawn one that isn't behind it.
fn shuffle(places: &mut [usize], start: u64) {
    let mut state = start;
    for last in (1..places.len()).rev() {
        state = next(state);
        let other = (state >> 32) % (last as u64 + 1);
        places.swap(last, other as usize);
    }
}

/// The blocks of a session, by TOI and SBN.
type Blocks = BTreeMap<(u128, u32), Block>;

/// A block, as far as it has come.
#[derive(Drop)]
struct Block {
    /// How many source symbols it has.
    sources: u8,
    /// The IDs of the symbols that came first, each once. From as many as it has source symbols it is solved.
    symbols: Vec<u8>,
}

impl Block {
    /// Adds a symbol, unless it came before or the block is solved.
    fn add(&mut self, esi: u8) -> Result<(), AllocError> {
        if self.symbols.len() < usize::from(self.sources) && !self.symbols.contains(&esi) {
            self.symbols.push(esi)?;
        }
        Ok(())
    }

    /// Its row steps: its missing source symbols times its source symbols, or none where it isn't solved.
    fn row_steps(&self) -> u64 {
        if self.symbols.len() < usize::from(self.sources) {
            return 0;
        }
        let sources = u64::from(self.sources);
        let symbols = self.symbols.as_slice();
        let there = symbols.iter().filter(|esi| **esi < self.sources).count();
        sources.saturating_sub(there as u64).saturating_mul(sources)
    }
}

/// The row steps of all blocks, where the datagrams that are sent come in the order of these places.
pub fn row_steps(alloc: Global, sent: &[Vec<u8>], places: &[usize]) -> Result<u64, AllocError> {
    let mut blocks = BTreeMap::new(alloc);
    for place in places {
        if let Some(datagram) = sent.get(*place) {
            arrive(alloc, &mut blocks, datagram.as_slice())?;
        }
    }
    Ok(sum_of(&blocks))
}

fn sum_of(blocks: &Blocks) -> u64 {
    let mut sum = 0u64;
    for block in blocks.values() {
        sum = sum.saturating_add(block.row_steps());
    }
    sum
}

/// Has a datagram come.
fn arrive(alloc: Global, blocks: &mut Blocks, datagram: &[u8]) -> Result<(), AllocError> {
    match read(datagram) {
        Ok(Datagram::Symbol(packet)) => arrive_symbol(alloc, blocks, &packet),
        _ => Ok(()),
    }
}

fn arrive_symbol(
    alloc: Global,
    blocks: &mut Blocks,
    packet: &Packet<'_>,
) -> Result<(), AllocError> {
    let sources = sources_of(&packet.oti, packet.sbn);
    let symbols = Vec::new(alloc);
    let block = blocks
        .entry((packet.toi, packet.sbn))?
        .or_insert(Block { sources, symbols });
    block.add(packet.esi)
}

/// How many source symbols this block has; none where there is no such block.
fn sources_of(oti: &Oti, sbn: u32) -> u8 {
    if sbn < oti.blocks() {
        oti.block_k(sbn)
    } else {
        0
    }
}
