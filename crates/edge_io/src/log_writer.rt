//! A packet log, written to a text.

ghost use Rattle.std.specs.Prelude.{◌≡◌, [], ◌∷◌, ◌++◌, true, false, Option, Some, None, All, length, ◌≤◌, OnOk, OnErr, IsErrOf, IsTrue};
ghost use Rattle.edge_io.specs.Faults.{Rose};
ghost use Rattle.edge_io.specs.Log.{item};
ghost use Rattle.edge_io.specs.LogWriting.{magic_due, IsInOrder, sent_on};

use crate::log_reader::MAGIC;
use crate::{Emit, Place, Text, Trouble};
use std::alloc::{AllocError, Global};

/// A sink of datagrams that writes them to a text as a packet log: the eight bytes `FCASTLG1`, and
/// then an item for each datagram, its length in two bytes, big-endian, and its bytes.
///
/// It takes either place alike. The first `connect` writes the eight bytes, or the first `send`
/// where none came before it. Each `send` is one `write` of the text. What was sent is told where
/// the text is told, and was empty until the eight bytes were written and is a log from then on.
#[derive(Drop)]
pub struct LogWriter<T: Text> {
    /// The text.
    pub sink: T,
    /// The place of the last `connect` that answered `Ok`.
    pub connected: Option<Place>,
    /// The eight bytes at the front are written.
    pub begun: bool,
    /// What one `send` writes, made anew each time.
    piece: Vec<u8>,
}

impl<T: Text> LogWriter<T> {
    /// A log of which nothing is written. Takes no memory.
    pub fn new(alloc: Global, sink: T) -> LogWriter<T>
        ensures sink { result.sink ≡ sink }
        ensures connected { result.connected ≡ None }
        ensures begun { result.begun ≡ false }
        ensures told { T.told sink → T.written sink ≡ [] → ⟦<LogWriter<T> as Emit>⟧.told result }
        ensures sent { ⟦<LogWriter<T> as Emit>⟧.sent result ≡ [] }
        ensures faults { ⟦<LogWriter<T> as Emit>⟧.faults result ≡ T.faults sink }
    {
        LogWriter {
            sink,
            connected: None,
            begun: false,
            piece: Vec::new(alloc),
        }
    }
}

impl<T: Text> Emit for LogWriter<T> {
    ghost use Rattle.edge_io.specs.LogWriting.{IsInOrder, sent_on};

    ghost told = { λ s. T.told s.sink × IsInOrder s.begun (T.written s.sink) };

    ghost sent = { λ s. sent_on s.begun (T.written s.sink) };

    ghost connected = { λ s. s.connected };

    ghost faults = { λ s. T.faults s.sink };

    #[tactic(auto, using(crate::proofs::LogWrites::connect_sends_none))]
    fn connect(&mut self, place: &Place) -> Result<(), Trouble>
        ensures ok { OnOk result (self.new.connected ≡ Some place.now) }
        ensures err { OnErr result (self.new.connected ≡ self.old.connected) }
        ensures written { OnOk result (T.told self.old.sink → T.written self.new.sink ≡ T.written self.old.sink ++ magic_due self.old.begun) }
        ensures unwritten { OnErr result (T.told self.old.sink → T.written self.new.sink ≡ T.written self.old.sink) }
        ensures begun { OnOk result (self.new.begun ≡ true) }
        ensures unbegun { OnErr result (self.new.begun ≡ self.old.begun) }
        ensures silent { self.old.begun ≡ true → self.new.sink ≡ self.old.sink }
        ensures told_sink { T.told self.old.sink → T.told self.new.sink }
        ensures told { T.told self.old.sink → IsInOrder self.old.begun (T.written self.old.sink) → IsInOrder self.new.begun (T.written self.new.sink) }
        ensures sent { T.told self.old.sink → IsInOrder self.old.begun (T.written self.old.sink)
            → sent_on self.new.begun (T.written self.new.sink) ≡ sent_on self.old.begun (T.written self.old.sink) }
        ensures rose { IsErrOf result Trouble.Failed → Rose (T.faults self.old.sink) (T.faults self.new.sink) }
        ensures grows { T.faults self.old.sink ≤ T.faults self.new.sink }
    {
        if !self.begun {
            self.sink.write(&MAGIC)?;
            self.begun = true;
        }
        self.connected = Some(*place);
        Ok(())
    }

    #[tactic(auto, using(crate::proofs::LogWrites::send_adds_one, crate::proofs::LogWrites::sent_short))]
    fn send(&mut self, datagram: &[u8]) -> Result<(), Trouble>
        requires { length datagram.now ≤ 65535 }
        ensures written { OnOk result (T.told self.old.sink → T.written self.new.sink ≡ T.written self.old.sink ++ (magic_due self.old.begun ++ item datagram.now)) }
        ensures unwritten { OnErr result (T.told self.old.sink → T.written self.new.sink ≡ T.written self.old.sink) }
        ensures begun { OnOk result (self.new.begun ≡ true) }
        ensures unbegun { OnErr result (self.new.begun ≡ self.old.begun) }
        ensures place { self.new.connected ≡ self.old.connected }
        ensures told_sink { T.told self.old.sink → T.told self.new.sink }
        ensures told { T.told self.old.sink → IsInOrder self.old.begun (T.written self.old.sink) → IsInOrder self.new.begun (T.written self.new.sink) }
        ensures ok { OnOk result (T.told self.old.sink → IsInOrder self.old.begun (T.written self.old.sink)
            → sent_on self.new.begun (T.written self.new.sink) ≡ sent_on self.old.begun (T.written self.old.sink) ++ datagram.now ∷ []) }
        ensures err { OnErr result (T.told self.old.sink → sent_on self.new.begun (T.written self.new.sink) ≡ sent_on self.old.begun (T.written self.old.sink)) }
        ensures short { All (λ d. length d ≤ 65535) (sent_on self.old.begun (T.written self.old.sink)) }
        ensures rose { IsErrOf result Trouble.Failed → Rose (T.faults self.old.sink) (T.faults self.new.sink) }
        ensures grows { T.faults self.old.sink ≤ T.faults self.new.sink }
    {
        make_piece(&mut self.piece, self.begun, datagram)?;
        self.sink.write(self.piece.as_slice())?;
        self.begun = true;
        Ok(())
    }
}

/// Makes the piece the log item of this datagram, behind the eight bytes of the front where these
/// aren't written yet.
fn make_piece(piece: &mut Vec<u8>, begun: bool, datagram: &[u8]) -> Result<(), AllocError>
    requires { length datagram.now ≤ 65535 }
    ensures { OnOk result (piece.new.items ≡ magic_due begun ++ item datagram.now) }
{
    piece.clear();
    if !begun {
        piece.extend_from_slice(&MAGIC)?;
    }
    put_item(piece, datagram)
}

/// Puts the log item of this datagram at the end.
fn put_item(piece: &mut Vec<u8>, datagram: &[u8]) -> Result<(), AllocError>
    requires { length datagram.now ≤ 65535 }
    ensures { OnOk result (piece.new.items ≡ piece.old.items ++ item datagram.now) }
{
    let length = datagram.len() as u16;
    piece.extend_from_slice(&length.to_be_bytes())?;
    piece.extend_from_slice(datagram)?;
    Ok(())
}
