//! A source block of which symbols are held (RFC 5510, section 8).
ghost use Rattle.std.specs.Prelude.{◌≡◌, ◌≤◌, ◌<◌, ◌+◌, ◌-◌, ◌*◌, ◌^◌, ◌++◌, ◌∷◌, ◌==◌, [], true, length};
ghost use Rattle.std.specs.Prelude.{min, take, nat_le, if◌then◌else◌, vec_len, Some, None, IfSome, OnOk, OnErr};
ghost use Rattle.std.specs.FinMap.{get};
ghost use Rattle.std.specs.List.{position_from};
ghost use Rattle.wire_bytes.specs.Bytes.{AreBytes, zero_filled};
ghost use Rattle.rs_code.specs.Weights.{ArePlaces};
ghost use Rattle.object_store.specs.declared.finding.Finding.TheVariants.{Full, Wanting};
ghost use Rattle.object_store.specs.Inner.BlockRows.{rows_held, IsSolved, steps_when_full};
ghost use Rattle.object_store.specs.Inner.BlockHeld.{BlockHeld, no_rows, held_in, is_full, with_symbol, solving_steps, finding_in};

use crate::difference::{compared, row_difference, symbol_difference};
use crate::finding::Finding;
use rs_solve::{Steps, solve};
use std::alloc::{AllocError, Global};
use std::marker::Model;

/// The places of the first k distinct symbols of a block, in order of arrival. `rows` has their rows in this order
/// while there are fewer than k, and from the k-th on the source rows, of which any of them can be made again.
#[derive(Drop)]
pub struct Block {
    k: u8,
    n: u8,
    size: u16,
    places: Vec<u8>,
    rows: Vec<u8>,
}

impl Model for Block {
    ghost use Rattle.object_store.specs.declared.finding.Finding.TheVariants.{Full, Wanting};
    ghost use Rattle.object_store.specs.Inner.BlockRows.{steps_when_full};
    ghost use Rattle.object_store.specs.Inner.BlockHeld.{BlockHeld};
    ghost use Rattle.object_store.specs.Inner.BlockRows.{rows_map, rows_held, IsBlock};
    ghost use Rattle.object_store.specs.Inner.Codes.{block_code};

    ghost Value = { BlockHeld };

    ghost coded = { block_code };

    ghost view = { λ a. record { k = a.k; n = a.n; size = a.size; rows = rows_map a.size a.places.items (rows_held a.k a.size a.places.items a.rows.items) } };

    ghost invariant = { λ a. IsBlock a.k a.n a.size a.places.items a.rows.items };
}

impl Block {
    /// A block of `k` source symbols and `n` encoding symbols of `size` bytes, of which none is held.
    pub fn new(alloc: Global, k: u8, n: u8, size: u16) -> Block
        requires some { 1 ≤ k }
        requires order { k ≤ n }
        requires size { 1 ≤ size }
        ensures { result ≡ no_rows k n size }
    {
        Block {
            k,
            n,
            size,
            places: Vec::new(alloc),
            rows: Vec::new(alloc),
        }
    }

    /// How many distinct symbols are held, at most k.
    #[tactic(auto, using(crate::proofs::Blocks::held_is_length))]
    pub fn len(&self) -> u8
        ensures held { result ≡ held_in self.now }
        ensures most { result ≤ self.now.k }
    {
        self.places.len() as u8
    }

    /// Says whether k symbols are held.
    pub fn is_full(&self) -> bool
        ensures { result ≡ is_full self.now }
    {
        self.k <= self.len()
    }

    /// What the symbol meets: what is held at its place, or how many symbols the block has.
    pub fn find(&self, esi: u8, symbol: &[u8]) -> Finding
        requires { length symbol.now ≤ self.now.size }
        ensures { result ≡ finding_in self.now esi symbol.now }
    {
        let Some(at) = position(self.places.as_slice(), esi) else {
            return wanting(self.len(), self.k);
        };
        let rows = self.rows.as_slice();
        if self.is_full() {
            compared(symbol_difference(self.k, self.size, rows, esi, symbol))
        } else {
            let size = usize::from(self.size);
            compared(row_difference(&rows[at * size..at * size + size], symbol))
        }
    }

    /// Holds one more symbol. With the k-th the block is solved, in the memory that was taken before.
    ///
    /// # Errors
    /// `AllocError`; then nothing has changed.
    pub fn add<L>(&mut self, esi: u8, symbol: &[u8], steps: &mut Steps<L>) -> Result<(), AllocError>
        requires place { esi < self.old.n }
        requires vacant { get self.old.rows esi ≡ None }
        requires wanting { held_in self.old < self.old.k }
        requires symbol { length symbol.now ≤ self.old.size }
        ensures ok { OnOk result (self.new ≡ with_symbol self.old esi symbol.now) }
        ensures err { OnErr result (self.new ≡ self.old) }
        ensures count { OnOk result (steps.new.count ≡ min (steps.old.count + solving_steps (with_symbol self.old esi symbol.now)) (2 ^ 64 - 1)) }
        ensures ledger { steps.new.ledger ≡ steps.old.ledger }
        ensures uncounted { OnErr result (steps.new.count ≡ steps.old.count) }
    {
        let size = usize::from(self.size);
        append(&mut self.places, &mut self.rows, size, esi, symbol)?;
        match solve_when_full(self.k, size, self.places.as_slice(), &mut self.rows, steps) {
            Ok(()) => Ok(()),
            Err(error) => {
                take_back(&mut self.places, &mut self.rows, size);
                Err(error)
            }
        }
    }

    /// The places of a block with k symbols, and its source rows, one after another.
    pub fn solved(&self) -> (&[u8], &[u8])
        requires { is_full self.now ≡ true }
        ensures { IsSolved self.now result.0.now result.1.now }
    {
        (self.places.as_slice(), all_bytes(self.rows.as_slice()))
    }
}

/// What a symbol whose place isn't held meets in a block of `held` symbols.
fn wanting(held: u8, k: u8) -> Finding
    ensures { result ≡ (if nat_le k held then Full else Wanting held) }
{
    if held < k {
        Finding::Wanting(held)
    } else {
        Finding::Full
    }
}

/// Adds a place, and its row with zeros behind the symbol.
fn append(
    places: &mut Vec<u8>,
    rows: &mut Vec<u8>,
    size: usize,
    esi: u8,
    symbol: &[u8],
) -> Result<(), AllocError>
    requires symbol { length symbol.now ≤ size }
    requires fits { vec_len rows.old + size < 2 ^ 64 }
    ensures places { OnOk result (places.new.items ≡ places.old.items ++ esi ∷ []) }
    ensures rows { OnOk result (rows.new.items ≡ rows.old.items ++ zero_filled size symbol.now) }
    ensures old_places { OnErr result (places.new.items ≡ places.old.items) }
    ensures old_rows { OnErr result (rows.new.items ≡ rows.old.items) }
{
    places.reserve(1)?;
    rows.reserve(size)?;
    let whole = rows.len() + size;
    rows.extend_from_slice(symbol)?;
    rows.resize(whole, 0)?;
    places.push(esi)?;
    Ok(())
}

/// Drops the last place and its row.
fn take_back(places: &mut Vec<u8>, rows: &mut Vec<u8>, size: usize)
    requires place { 1 ≤ vec_len places.old }
    requires row { size ≤ vec_len rows.old }
    ensures places { places.new.items ≡ take (length places.old.items - 1) places.old.items }
    ensures rows { rows.new.items ≡ take (length rows.old.items - size) rows.old.items }
{
    places.truncate(places.len() - 1);
    rows.truncate(rows.len() - size);
}

/// Puts the source rows in place of k rows. Fewer rows stay.
fn solve_when_full<L>(
    k: u8,
    size: usize,
    places: &[u8],
    rows: &mut Vec<u8>,
    steps: &mut Steps<L>,
) -> Result<(), AllocError>
    requires places { ArePlaces places.now }
    requires size { 1 ≤ size }
    requires rows { length rows.old.items ≡ length places.now * size }
    ensures held { OnOk result (rows_held k size places.now rows.new.items ≡ rows.old.items) }
    ensures whole { OnOk result (length rows.new.items ≡ length rows.old.items) }
    ensures err { OnErr result (rows.new.items ≡ rows.old.items) }
    ensures count { OnOk result (steps.new.count ≡ min (steps.old.count + steps_when_full k places.now) (2 ^ 64 - 1)) }
    ensures ledger { steps.new.ledger ≡ steps.old.ledger }
    ensures uncounted { OnErr result (steps.new.count ≡ steps.old.count) }
{
    let _before = steps.count();
    if places.len() == usize::from(k) {
        *rows = solve(*rows.allocator(), size, places, rows.as_slice(), steps)?;
    }
    Ok(())
}

/// The same bytes.
fn all_bytes(bytes: &[u8]) -> &[u8]
    ensures same { result.now ≡ bytes.now }
    ensures sound { AreBytes bytes.now }
{
    bytes
}

/// Where a place stands among the places.
pub fn position(places: &[u8], esi: u8) -> Option<usize>
    ensures first { result ≡ position_from (λ p. p == esi) 0 places.now }
    ensures within { IfSome result (λ at. at < length places.now) }
{
    places.iter().position(|p| *p == esi)
}
