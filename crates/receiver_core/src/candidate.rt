//! A descriptor that may become the best instance.

use carousel_cid::Listed;

/// A ready descriptor, and what it waits for.
#[derive(Drop)]
pub struct Candidate {
    /// The descriptor's object.
    pub toi: u128,
    /// The number of its instance.
    pub number: u32,
    /// The identifiers that it lists, without those in front that are known as files.
    pub rest: Listed,
}
