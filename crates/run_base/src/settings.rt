//! What a receiver is told.
use crate::bound::Bound;
use edge_io::Place;

/// What a receiver is told.
#[derive(Clone, Copy, PartialEq, Eq, Debug)]
pub struct Settings {
    /// The session's identifier (TSI), below 2^48.
    pub tsi: u64,
    /// How many bytes of symbols may be held, from 4,096 to 2^30.
    pub budget: u64,
    /// Where the datagrams come from.
    pub place: Place,
    /// How many datagrams are taken.
    pub bound: Bound,
}
