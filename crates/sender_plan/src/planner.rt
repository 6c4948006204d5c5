//! The objects of a session, made one after another.

ghost use Rattle.std.specs.Prelude.{◌≡◌, ◌<◌, ◌≤◌, ◌+◌, ◌^◌, ℕ, List, length, map, IfOk, OnOk, OnErr, true, unwrap_or, slice_index_or, ◌∷◌, ◌++◌, []};
ghost use Rattle.std.specs.Option.{ForSome};
ghost use Rattle.std.specs.List.{position_or_len, AllByRecursion};
ghost use Rattle.meta_text.specs.Text.{IsValue};
ghost use Rattle.carousel_cid.specs.Repeats.{are_different};
ghost use Rattle.oti_blocks.specs.Partition.{IsSound};
ghost use Rattle.sender_plan.specs.CatalogInstance.{CatalogInstance};
ghost use Rattle.sender_plan.specs.Content.{Content, Descriptor, same};
ghost use Rattle.sender_plan.specs.Inner.Sets.{added};
ghost use Rattle.sender_plan.specs.Inner.Planning.{Keeps, IsReady, file_at, shown_kind};
ghost use Rattle.sender_plan.specs.Plan.{information};

use crate::key::FileKey;
use crate::params::Params;
use crate::session::SentObject;
use carousel_cid::{write_descriptor, write_file};
use compound_object::Blob;
use indexmap::IndexMap;
use oti_blocks::Oti;
use std::alloc::AllocError;

/// The objects so far, and where each file stands among them.
#[derive(Drop)]
pub(crate) struct Planner<'a, 'b> {
    pub(crate) params: Params,
    /// The distinct bodies, by which keys count.
    pub(crate) bodies: &'b [&'b [u8]],
    pub(crate) objects: Vec<SentObject>,
    /// The identifier of each file.
    pub(crate) files: IndexMap<FileKey<'a>, usize>,
}

impl<'a, 'b> Planner<'a, 'b> {
    /// The identifier of a file, whose object is made where it isn't there yet.
    pub(crate) fn file(&mut self, key: FileKey<'a>) -> Result<usize, AllocError>
        requires ready { IsReady self.old }
        requires body { key.body < length self.old.bodies.now }
        requires somewhere { 0 < length key.location.now }
        requires location { IsValue key.location.now }
        requires kind { ForSome (shown_kind key.kind) IsValue }
        requires short { length (slice_index_or (map (λ b. b.now) self.old.bodies.now) key.body []) ≤ 16777216 }
        requires texts { length key.location.now + length (unwrap_or (shown_kind key.kind) []) ≤ 16777216 }
        ensures same { (self.new.params ≡ self.old.params) × (self.new.bodies.now ≡ self.old.bodies.now) }
        ensures ready { OnOk result (IsReady self.new) }
        ensures ok { IfOk result (λ toi. (listed : CatalogInstance → List ℕ) (kept : List Content) → Keeps listed kept self.old
            → Keeps listed (added same kept (file_at (map (λ b. b.now) self.old.bodies.now) key.entry)) self.new) }
        ensures toi { IfOk result (λ toi. (listed : CatalogInstance → List ℕ) (kept : List Content) → Keeps listed kept self.old
            → toi ≡ position_or_len (same (file_at (map (λ b. b.now) self.old.bodies.now) key.entry))
            (added same kept (file_at (map (λ b. b.now) self.old.bodies.now) key.entry)) + 1) }
    {
        if let Some(toi) = self.files.get(&key).copied() {
            return Ok(toi);
        }
        let alloc = *self.objects.allocator();
        let bytes = write_file(alloc, key.location, key.kind, self.bodies[key.body])?;
        let toi = self.push(bytes)?;
        self.files.insert(key, toi)?;
        Ok(toi)
    }

    /// Adds the descriptor of an instance with this number, which lists these identifiers, and gives its own.
    pub(crate) fn descriptor(&mut self, number: u32, listed: &[u128]) -> Result<usize, AllocError>
        requires ready { IsReady self.old }
        requires few { length listed.now ≤ 4096 }
        requires different { are_different listed.now ≡ true }
        requires small { AllByRecursion (λ toi. toi < 2 ^ 112) listed.now }
        ensures same { (self.new.params ≡ self.old.params) × (self.new.bodies.now ≡ self.old.bodies.now) }
        ensures ready { OnOk result (IsReady self.new) }
        ensures toi { IfOk result (λ toi. toi ≡ length self.old.objects.items + 1) }
        ensures ok { OnOk result ((lists : CatalogInstance → List ℕ) (kept : List Content) (instance : CatalogInstance) → Keeps lists kept self.old
            → instance.number ≡ number → lists instance ≡ listed.now → Keeps lists (kept ++ Descriptor instance ∷ []) self.new) }
    {
        let alloc = *self.objects.allocator();
        let bytes = write_descriptor(alloc, number, listed)?;
        self.push(bytes)
    }

    /// Adds an object with these bytes, and gives its identifier.
    pub(crate) fn push(&mut self, bytes: Vec<u8>) -> Result<usize, AllocError>
        requires ready { IsReady self.old }
        requires sound { self.old.params.max_n < 2 ^ 8 → IsSound (information self.old.params bytes.items) }
        ensures same { (self.new.params ≡ self.old.params) × (self.new.bodies.now ≡ self.old.bodies.now) × (self.new.files ≡ self.old.files) }
        ensures ready { OnOk result (IsReady self.new) }
        ensures toi { IfOk result (λ toi. toi ≡ length self.old.objects.items + 1) }
        ensures ok { OnOk result (self.new.objects.items ≡ self.old.objects.items ++ record {
          toi = length self.old.objects.items + 1;
          oti = information self.old.params bytes.items;
          bytes = bytes.items;
        } ∷ []) }
    {
        let toi = self.objects.len() as u128 + 1;
        let Ok(oti) = Oti::new(
            bytes.len() as u64,
            self.params.symbol,
            self.params.max_block,
            self.params.max_n,
        ) else {
            unreachable!()
        };
        self.objects.push(SentObject {
            toi,
            oti,
            bytes: Blob::new(bytes),
        })?;
        Ok(self.objects.len())
    }
}
