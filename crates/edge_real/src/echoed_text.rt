//! A text that is also said.

ghost use Rattle.std.specs.Prelude.{◌≡◌};

use edge_io::{Text, Trouble};
use std::io;
use std::io::Write;

/// A text whose writes also go to a second writer, where there is one: each after `fcast: `, so that
/// a person reads on standard error what a file gets. Where that writer fails, nothing tells it.
///
/// It tells what its text tells, and fails where that fails.
#[derive(Drop)]
pub struct EchoedText<T: Text + Drop, W: Write + Drop> {
    /// The text.
    pub text: T,
    /// The second writer.
    pub echo: Option<W>,
}

impl<T: Text + Drop, W: Write + Drop> EchoedText<T, W> {
    /// This text, and the writer to which its writes also go.
    pub fn new(text: T, echo: Option<W>) -> EchoedText<T, W>
        ensures text { result.text ≡ text }
        ensures echo { result.echo ≡ echo }
    {
        EchoedText { text, echo }
    }
}

impl<T: Text + Drop, W: Write + Drop> Text for EchoedText<T, W> {
    ghost told = { λ s. T.told s.text };

    ghost written = { λ s. T.written s.text };

    ghost faults = { λ s. T.faults s.text };

    fn write(&mut self, bytes: &[u8]) -> Result<(), Trouble> {
        if let Some(echo) = &mut self.echo {
            let _said = say(echo, bytes);
        }
        self.text.write(bytes)
    }
}

/// Writes the bytes after `fcast: `.
fn say<W: Write>(echo: &mut W, bytes: &[u8]) -> io::Result<()> {
    echo.write_all(b"fcast: ")?;
    echo.write_all(bytes)
}
