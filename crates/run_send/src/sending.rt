//! What a send is told, and what ends it before its end.
ghost use Rattle.std.specs.Prelude.{◌≡◌};
ghost use Rattle.run_send.specs.Send.{refusal_status};

use edge_io::Place;
use meta_text::Label;
use run_base::Status;
use sender_plan::Params;
use std::alloc::AllocError;

/// What a send is told.
#[derive(Drop)]
pub struct Sending {
    /// The catalog's name.
    pub catalog: Label,
    /// Where the datagrams go.
    pub place: Place,
    /// How the session is sent.
    pub params: Params,
}

/// Why nothing is sent.
#[derive(Drop)]
pub enum Refusal {
    /// The first bad line of the catalog, and the lowest of its causes, as `sender_plan::CatalogFault` counts them.
    Line { line: u64, cause: u8 },
    /// The catalog can't be planned: 1 at the instance whose number isn't above the one before, 2 at the instance with
    /// too many files, 3 where the bodies have together too many bytes, with their number, and 4 at 0 where the most
    /// encoding symbols of a block are fewer than its most source symbols.
    Plan { cause: u8, at: u64 },
    /// No file has this name.
    Absent(Label),
    /// The file with this name has more than 16,777,216 bytes.
    TooBig(Label),
}

impl Refusal {
    /// How the run ends.
    pub fn status(&self) -> Status
        ensures { result ≡ refusal_status self.now }
    {
        match self {
            Refusal::Line { .. } | Refusal::Plan { .. } => Status::Refused,
            Refusal::Absent(_) | Refusal::TooBig(_) => Status::Missing,
        }
    }
}

/// What ended a send before its end.
#[derive(Drop)]
pub enum Stop {
    /// It is refused, and nothing is sent.
    Refused(Refusal),
    /// The sink failed.
    Emit,
    /// The files failed.
    Files,
    /// There was no memory.
    Memory,
}

impl From<AllocError> for Stop {
    ghost use Rattle.std.specs.Prelude.{◌≡◌};
    ghost use Rattle.run_send.specs.declared.sending.Stop.TheVariants.{Memory};

    ghost from_gives = { λ _ e. e ≡ Memory };

    fn from(_error: AllocError) -> Stop {
        Stop::Memory
    }
}
