//! What keeps slices from making a file.

/// Why the slices under one location make no file: the first of these that holds, in listed order.
#[derive(Clone, Copy, Debug, PartialEq, Eq)]
pub enum JoinFault {
    /// This slice's body has fewer than 16 bytes, its place is 0 or above its count, or its count is above 4,096.
    Header { toi: u128 },
    /// This slice's count, total or type isn't the first slice's.
    Disagree { toi: u128 },
    /// An earlier slice has this place too.
    Twice { place: u32 },
    /// No slice has this place, the least up to the count.
    Missing { place: u32 },
    /// The parts have so many bytes together, which isn't the total.
    Total { found: u64 },
}
