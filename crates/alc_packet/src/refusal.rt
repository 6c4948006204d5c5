//! Why a datagram is refused.

ghost use Rattle.std.specs.Prelude.{◌≡◌};
ghost use Rattle.alc_packet.specs.Code.{code_of, detail_of};

use lct_header::HeaderFault;
use oti_blocks::OtiFault;

/// Why a datagram is neither a packet nor a control: the first of these that holds. From `OtherScheme` on they speak of
/// a datagram with bytes behind its header.
#[derive(Clone, Copy, Debug, PartialEq, Eq)]
pub enum Refusal {
    /// It has fewer than 4 bytes.
    Short,
    /// The version of its header isn't 1.
    Version,
    /// The header's stated length is below that of its fixed fields, or above the datagram's.
    LengthField,
    /// The first faulty extension has a type below 128 and a length of 0. `detail`: its byte place.
    ExtensionZero { detail: u64 },
    /// The first faulty extension has a type below 128 and ends past the header. `detail`: its byte place.
    ExtensionLong { detail: u64 },
    /// The codepoint isn't 5. `detail`: the codepoint.
    OtherScheme { detail: u64 },
    /// The TOI has no bits.
    NoToi,
    /// No extension is an EXT_FTI.
    NoFti,
    /// More than one extension is an EXT_FTI.
    FtiTwice,
    /// The content of the EXT_FTI isn't ten bytes. `detail`: its length in bytes.
    FtiLength { detail: u64 },
    /// The transmission information states symbols without bytes.
    ZeroSymbol,
    /// It states blocks without source symbols.
    ZeroBlock,
    /// It states fewer encoding symbols than source symbols for a block.
    MaxN,
    /// It states an object of fewer than 8 bytes.
    ShortObject,
    /// It states more than 2^24 source blocks.
    TooManyBlocks,
    /// Fewer than 4 bytes follow the header.
    NoPayloadId,
    /// The object has no source block with this number (SBN). `detail`: the number.
    BlockOut { detail: u64 },
    /// The block has no encoding symbol with this ID (ESI). `detail`: the ID.
    SymbolOut { detail: u64 },
    /// The symbol isn't as long as stated, and isn't the object's last source symbol cut at the object's end. `detail`:
    /// its length in bytes.
    SymbolLength { detail: u64 },
    /// It is the last source symbol, whole, and isn't zero behind the object's end. `detail`: the place in the symbol of
    /// the first byte there that isn't 0.
    FillNotZero { detail: u64 },
}

impl Refusal {
    /// The refusal's number in this list, from 1 to 20.
    pub fn code(&self) -> u8
        ensures { result ≡ code_of self.now }
    {
        match self {
            Refusal::Short => 1,
            Refusal::Version => 2,
            Refusal::LengthField => 3,
            Refusal::ExtensionZero { .. } => 4,
            Refusal::ExtensionLong { .. } => 5,
            Refusal::OtherScheme { .. } => 6,
            Refusal::NoToi => 7,
            Refusal::NoFti => 8,
            Refusal::FtiTwice => 9,
            Refusal::FtiLength { .. } => 10,
            Refusal::ZeroSymbol => 11,
            Refusal::ZeroBlock => 12,
            Refusal::MaxN => 13,
            Refusal::ShortObject => 14,
            Refusal::TooManyBlocks => 15,
            Refusal::NoPayloadId => 16,
            Refusal::BlockOut { .. } => 17,
            Refusal::SymbolOut { .. } => 18,
            Refusal::SymbolLength { .. } => 19,
            Refusal::FillNotZero { .. } => 20,
        }
    }

    /// What it says besides, and 0 where there is nothing more to say.
    pub fn detail(&self) -> u64
        ensures { result ≡ detail_of self.now }
    {
        match self {
            Refusal::ExtensionZero { detail }
            | Refusal::ExtensionLong { detail }
            | Refusal::OtherScheme { detail }
            | Refusal::FtiLength { detail }
            | Refusal::BlockOut { detail }
            | Refusal::SymbolOut { detail }
            | Refusal::SymbolLength { detail }
            | Refusal::FillNotZero { detail } => *detail,
            _ => 0,
        }
    }
}

impl From<HeaderFault> for Refusal {
    ghost use Rattle.std.specs.Prelude.{◌≡◌};
    ghost use Rattle.alc_packet.specs.Refusal.{of_header};

    ghost from_gives = { λ fault refusal. refusal ≡ of_header fault };

    fn from(fault: HeaderFault) -> Refusal {
        match fault {
            HeaderFault::Short => Refusal::Short,
            HeaderFault::Version => Refusal::Version,
            HeaderFault::LengthField => Refusal::LengthField,
            HeaderFault::ExtensionZero { at } => Refusal::ExtensionZero { detail: at },
            HeaderFault::ExtensionLong { at } => Refusal::ExtensionLong { detail: at },
        }
    }
}

impl From<OtiFault> for Refusal {
    ghost use Rattle.std.specs.Prelude.{◌≡◌};
    ghost use Rattle.alc_packet.specs.Refusal.{of_information};

    ghost from_gives = { λ fault refusal. refusal ≡ of_information fault };

    fn from(fault: OtiFault) -> Refusal {
        match fault {
            OtiFault::FtiLength { length } => Refusal::FtiLength { detail: length },
            OtiFault::ZeroSymbol => Refusal::ZeroSymbol,
            OtiFault::ZeroBlock => Refusal::ZeroBlock,
            OtiFault::MaxN => Refusal::MaxN,
            OtiFault::ShortObject => Refusal::ShortObject,
            OtiFault::TooManyBlocks => Refusal::TooManyBlocks,
        }
    }
}
