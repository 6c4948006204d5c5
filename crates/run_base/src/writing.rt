//! Writing to the text of a run.
ghost use Rattle.std.specs.Prelude.{◌≡◌, ◌≤◌, ◌++◌, IfOk, OnOk, OnErr};
ghost use Rattle.edge_io.specs.Faults.{Rose};
ghost use Rattle.run_base.specs.Texts.{usage_line};
ghost use Rattle.run_base.specs.Answers.{Blames, LeavesText};
ghost use Rattle.run_base.specs.Outcome.{Once};
ghost use Rattle.run_base.specs.declared.status.Status.TheVariants.{NoCommand};

use crate::fault::Fault;
use crate::status::Status;
use edge_io::{Text, Trouble};

/// What words that are no command get.
const USAGE: &str = "usage: replay, recv, send, dump, drill or listen\n";

/// Writes the usage line, and answers that the words are no command.
pub fn tell_usage<T: Text>(text: &mut T) -> Result<Status, Fault>
    ensures status { IfOk result (λ s. s ≡ NoCommand) }
    ensures text { T.told text.old → LeavesText Once result usage_line (T.written text.old) (T.written text.new) }
    ensures blames { Blames result ⊥ (Rose (T.faults text.old) (T.faults text.new)) ⊥ ⊥ ⊥ }
{
    tell(text, USAGE, Status::NoCommand)
}

/// Writes the lines to the text in one piece, and answers the status.
pub fn tell<T: Text>(text: &mut T, lines: &str, status: Status) -> Result<Status, Fault>
    ensures status { IfOk result (λ s. s ≡ status) }
    ensures text { T.told text.old → LeavesText Once result lines.now (T.written text.old) (T.written text.new) }
    ensures told { T.told text.old → T.told text.new }
    ensures blames { Blames result ⊥ (Rose (T.faults text.old) (T.faults text.new)) ⊥ ⊥ ⊥ }
    ensures grows { T.faults text.old ≤ T.faults text.new }
{
    write(text, lines)?;
    Ok(status)
}

/// Writes the lines to the text in one piece.
pub fn write<T: Text>(text: &mut T, lines: &str) -> Result<(), Fault>
    ensures ok { OnOk result (T.told text.old → T.written text.new ≡ T.written text.old ++ lines.now) }
    ensures err { OnErr result (T.told text.old → T.written text.new ≡ T.written text.old) }
    ensures told { T.told text.old → T.told text.new }
    ensures blames { Blames result ⊥ (Rose (T.faults text.old) (T.faults text.new)) ⊥ ⊥ ⊥ }
    ensures grows { T.faults text.old ≤ T.faults text.new }
{
    match text.write(lines.as_bytes()) {
        Ok(()) => Ok(()),
        Err(Trouble::Failed) => Err(Fault::Text),
        Err(Trouble::Memory) => Err(Fault::Memory),
    }
}
