//! The command `dump`.
ghost use Rattle.std.specs.Prelude.{◌≡◌, ◌≤◌, ◌++◌, true, Some, IfOk, OnOk, OnErr, length, take, drop};
ghost use Rattle.edge_io.specs.Faults.{Rose};
ghost use Rattle.run_dump.specs.Dump.{dump_line, dump_lines, dump_status, dump_statuses, dumped};
ghost use Rattle.run_base.specs.Statuses.{is_one_of};
ghost use Rattle.run_base.specs.Parts.{AddsPart};
ghost use Rattle.run_base.specs.Bounds.{asked, ending_of, limit};
ghost use Rattle.run_base.specs.Outcome.{Streams};
ghost use Rattle.run_base.specs.declared.ending.Ending.TheVariants.{End};
ghost use Rattle.run_base.specs.Texts.{ending_line};
ghost use Rattle.run_base.specs.Answers.{AfterAll, AfterTaking, Blames, LeavesText};

use crate::dump_line::dump_line;
use edge_io::{Datagrams, Place, Text};
use run_base::{
    Bound, Ending, Fault, Status, Step, datagram_buffer, next_within, push_ending, write,
};
use std::alloc::Global;

/// Writes a line for each datagram of the log, but no more than `most`, as it is read, and one that says why the list
/// wasn't read to its end. Answers how it ended.
pub fn dump<D: Datagrams, T: Text>(
    alloc: Global,
    most: u64,
    datagrams: &mut D,
    text: &mut T,
) -> Result<Status, Fault>
    ensures table { IfOk result (λ s. is_one_of dump_statuses s ≡ true) }
    ensures status { D.told datagrams.old → IfOk result (λ s. s ≡ (dumped most (D.left datagrams.old) (D.torn datagrams.old)).status) }
    ensures text { D.told datagrams.old → T.told text.old →
        LeavesText Streams result (dumped most (D.left datagrams.old) (D.torn datagrams.old)).text (T.written text.old) (T.written text.new) }
    ensures left { D.told datagrams.old → AfterAll Streams result
        (D.left datagrams.new ≡ drop (dumped most (D.left datagrams.old) (D.torn datagrams.old)).asked (D.left datagrams.old)) }
    ensures place { AfterTaking result (D.connected datagrams.new ≡ Some Place.Log) }
    ensures blames { Blames result (Rose (D.faults datagrams.old) (D.faults datagrams.new)) (Rose (T.faults text.old) (T.faults text.new)) ⊥ ⊥ ⊥ }
{
    let mut buffer = datagram_buffer(alloc)?;
    let Ok(()) = datagrams.connect(&Place::Log) else {
        return Err(Fault::Datagrams);
    };
    let bound = Bound::Most(most);
    let ending = dump_all(alloc, bound, datagrams, text, buffer.as_mut_slice())?;
    end(alloc, ending, text)
}

/// Writes the lines of the datagrams that are left, as far as the bound goes.
fn dump_all<D: Datagrams, T: Text>(
    alloc: Global,
    mut bound: Bound,
    datagrams: &mut D,
    text: &mut T,
    buffer: &mut [u8],
) -> Result<Ending, Fault>
    requires room { 65535 ≤ length buffer.old }
    ensures ending { IfOk result (λ ending. D.told datagrams.old → ending ≡ ending_of bound (D.left datagrams.old) (D.torn datagrams.old)) }
    ensures text { D.told datagrams.old → T.told text.old →
        OnOk result (T.written text.new ≡ T.written text.old ++ dump_lines 0 (take (limit bound) (D.left datagrams.old))) }
    ensures part { D.told datagrams.old → T.told text.old →
        OnErr result (AddsPart (dump_lines 0 (take (limit bound) (D.left datagrams.old))) (T.written text.old) (T.written text.new)) }
    ensures told { T.told text.old → T.told text.new }
    ensures left { OnOk result (D.told datagrams.old → D.left datagrams.new ≡ drop (asked bound) (D.left datagrams.old)) }
    ensures place { D.connected datagrams.new ≡ D.connected datagrams.old }
    ensures blames { Blames result (Rose (D.faults datagrams.old) (D.faults datagrams.new)) (Rose (T.faults text.old) (T.faults text.new)) ⊥ ⊥ ⊥ }
    ensures grows { D.faults datagrams.old ≤ D.faults datagrams.new }
    ensures grows_text { T.faults text.old ≤ T.faults text.new }
{
    let mut index: u64 = 0;
    loop {
        match next_within(datagrams, &mut bound, buffer)? {
            Step::Got(size) => tell_line(alloc, text, index, &buffer[..size])?,
            Step::Ended(ending) => return Ok(ending),
        }
        index += 1;
    }
}

/// Writes the line of a datagram in one piece.
fn tell_line<T: Text>(alloc: Global, text: &mut T, index: u64, datagram: &[u8]) -> Result<(), Fault>
    ensures ok { OnOk result (T.told text.old → T.written text.new ≡ T.written text.old ++ dump_line index datagram.now) }
    ensures err { OnErr result (T.told text.old → T.written text.new ≡ T.written text.old) }
    ensures told { T.told text.old → T.told text.new }
    ensures blames { Blames result ⊥ (Rose (T.faults text.old) (T.faults text.new)) ⊥ ⊥ ⊥ }
    ensures grows { T.faults text.old ≤ T.faults text.new }
{
    let line = dump_line(alloc, index, datagram)?;
    write(text, line.as_str())
}

/// Writes why the list wasn't read to its end, where it wasn't, and answers how the dump ended.
fn end<T: Text>(alloc: Global, ending: Ending, text: &mut T) -> Result<Status, Fault>
    ensures table { IfOk result (λ s. is_one_of dump_statuses s ≡ true) }
    ensures status { IfOk result (λ s. s ≡ dump_status ending) }
    ensures ok { OnOk result (T.told text.old → T.written text.new ≡ T.written text.old ++ ending_line ending) }
    ensures err { OnErr result (T.told text.old → T.written text.new ≡ T.written text.old) }
    ensures alone { ending ≡ End → text.new ≡ text.old }
    ensures blames { Blames result ⊥ (Rose (T.faults text.old) (T.faults text.new)) ⊥ ⊥ ⊥ }
{
    match ending {
        Ending::End => Ok(dump_status(ending)),
        Ending::Torn(_) | Ending::TooMany => tell_ending(alloc, ending, text),
    }
}

/// Writes the line of the ending in one piece, and answers how the dump ended.
fn tell_ending<T: Text>(alloc: Global, ending: Ending, text: &mut T) -> Result<Status, Fault>
    ensures table { IfOk result (λ s. is_one_of dump_statuses s ≡ true) }
    ensures status { IfOk result (λ s. s ≡ dump_status ending) }
    ensures ok { OnOk result (T.told text.old → T.written text.new ≡ T.written text.old ++ ending_line ending) }
    ensures err { OnErr result (T.told text.old → T.written text.new ≡ T.written text.old) }
    ensures blames { Blames result ⊥ (Rose (T.faults text.old) (T.faults text.new)) ⊥ ⊥ ⊥ }
{
    let mut line = String::new(alloc);
    push_ending(alloc, &mut line, ending)?;
    write(text, line.as_str())?;
    Ok(dump_status(ending))
}

fn dump_status(ending: Ending) -> Status
    ensures status { result ≡ dump_status ending }
    ensures table { is_one_of dump_statuses result ≡ true }
{
    match ending {
        Ending::End => Status::Done,
        Ending::Torn(_) => Status::Torn,
        Ending::TooMany => Status::TooMany,
    }
}
