//! The table of statuses: how a run ends, and the number that the program answers then.
ghost use Rattle.std.specs.Prelude.{◌≡◌, ◌≢◌, None, Err, IfSome};
ghost use Rattle.run_base.specs.Statuses.{number};
ghost use Rattle.run_base.specs.declared.fault.Fault.{Fault};

use crate::fault::Fault;

/// How a run ends that no device and no want of memory stopped.
#[derive(Clone, Copy, PartialEq, Eq, Debug)]
pub enum Status {
    /// The list was read to its end, an instance is installed, and no packet was over the budget; or it
    /// was dumped; or all was sent; or it was drilled and an instance is installed.
    Done,
    /// The words are no command.
    NoCommand,
    /// The list was read to its end, nothing is installed, and no packet was over the budget; or it was
    /// drilled and nothing is installed.
    NothingInstalled,
    /// The log is torn.
    Torn,
    /// The list was read to its end, and at least one packet was over the budget.
    OverBudget,
    /// The catalog has a bad line, or its session can't be planned: nothing was sent.
    Refused,
    /// A file isn't there, or has more than 16,777,216 bytes: nothing was sent.
    Missing,
    /// As many datagrams were taken as may be, and one more came.
    TooMany,
}

/// The number that the program answers where a run ended so, or a fault stopped it.
pub fn number(answer: Result<Status, Fault>) -> u8
    ensures { result ≡ number answer }
{
    match answer {
        Ok(Status::Done) => 0,
        Ok(Status::NoCommand) => 1,
        Ok(Status::NothingInstalled) => 2,
        Ok(Status::Torn) => 3,
        Err(Fault::Datagrams) => 4,
        Err(Fault::Text | Fault::Emit) => 5,
        Err(Fault::Shelf) => 6,
        Ok(Status::OverBudget) => 7,
        Ok(Status::Refused) => 8,
        Err(Fault::Memory) => 9,
        Ok(Status::Missing) => 10,
        Ok(Status::TooMany) => 11,
        Err(Fault::Files) => 12,
    }
}

/// The fault that a number says, and none where a run ended with it. Of the text and the sink, which share a number, it is
/// the text.
pub fn fault_of(status: u8) -> Option<Fault>
    ensures said { IfSome result (λ fault. number (Err fault) ≡ status) }
    ensures unsaid { result ≡ None → (fault : Fault) → number (Err fault) ≢ status }
{
    match status {
        4 => Some(Fault::Datagrams),
        5 => Some(Fault::Text),
        6 => Some(Fault::Shelf),
        9 => Some(Fault::Memory),
        12 => Some(Fault::Files),
        _ => None,
    }
}
