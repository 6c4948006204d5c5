//! Laws over the definitions. They are proved, and do nothing when they are called.

ghost use Rattle.std.specs.Prelude.{List, ℕ, All};
ghost use Rattle.wire_bytes.specs.Bytes.{AreBytes};
ghost use Rattle.run_base.specs.declared.settings.Settings.{Settings};
ghost use Rattle.run_receive.specs.Events.{published};
ghost use Rattle.run_readers.specs.ReaderLines.{AreReaderLines, IsNotAbove, last_number};

/// No line of a reader has noted a number above that of the last published instance, whatever datagrams come.
pub fn no_number_is_above_the_last()
    ensures { (c : Settings) (left : List (List ℕ)) → All AreBytes left → (readers : ℕ) (text : List ℕ) (lines : AreReaderLines (published c left) readers text)
        → All (λ saw. IsNotAbove saw (last_number (published c left))) lines.saw }
{}
