//! The kinds of objects, and the causes why one is unusable.

use crate::Listed;
use compound_object::Blob;
use meta_text::Label;

/// Why an object is neither a file nor a descriptor: the first of these that holds.
#[derive(Clone, Copy, PartialEq, Eq, Debug)]
pub enum Cause {
    /// A known field comes twice.
    KnownTwice,
    /// `Content-Length` is there, and isn't a number equal to the body's length in bytes.
    LengthDiffers,
    /// A file without a `Content-Location`, or with an empty one.
    NoLocation,
    /// A descriptor without an `Fcast-CID-ID`.
    NoNumber,
    /// Its value isn't a number up to 4,294,967,295.
    BadNumber,
    /// The body of a descriptor isn't a list of identifiers. The first entry that is bad starts at this
    /// place in the body, counted from 0.
    BadList { at: u64 },
    /// The list stands for more than 4,096 identifiers, repeats counted.
    ListTooLong,
    /// The bytes are no compound object: the fault, 1 to 8 in the order of `CompoundFault`.
    Compound(u8),
}

/// What an object is (RFC 6968, section 3).
#[derive(Drop)]
pub enum Kind {
    /// A file: its location, its type where it has one, and its bytes.
    File {
        location: Label,
        kind: Option<Label>,
        body: Blob,
    },
    /// A carousel instance descriptor: the instance's number, and the identifiers that it lists,
    /// each at its first place alone.
    Descriptor {
        number: u32,
        listed: Listed,
    },
    /// Neither, and why.
    Unusable(Cause),
}
