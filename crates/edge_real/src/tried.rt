//! A device whose calls are tried again.

ghost use Rattle.std.specs.Prelude.{◌≡◌, ◌≢◌, IfErr};
ghost use Rattle.std.specs.Io.{ReadsAtMost, WritesAtMost};
ghost use Rattle.std.specs.IoError.{error_kind};

use crate::tries::{TRIES, interrupted_each_time};
use std::io;
use std::io::{ErrorKind, Read, Write};

/// A device whose calls are tried again where a signal interrupts them, each up to 1,000 times.
///
/// It stands right above the device: std's own buffers and loops try for ever.
#[derive(Drop)]
pub struct Tried<D: Drop> {
    /// The device.
    pub device: D,
}

impl<D: Drop> Tried<D> {
    /// This device, each of whose calls is tried again.
    pub fn new(device: D) -> Tried<D>
        ensures device { result.device ≡ device }
    {
        Tried { device }
    }
}

impl<R: Read + Drop> Read for Tried<R> {
    fn read(&mut self, out: &mut [u8]) -> io::Result<usize>
        ensures bound { ReadsAtMost result out.new }
        ensures tried { IfErr result (λ e. error_kind e ≢ ErrorKind.Interrupted) }
    {
        for _ in 0..TRIES {
            match self.device.read(out) {
                Err(error) if error.kind() == ErrorKind::Interrupted => {}
                done => return done,
            }
        }
        Err(interrupted_each_time())
    }
}

impl<W: Write + Drop> Write for Tried<W> {
    fn write(&mut self, bytes: &[u8]) -> io::Result<usize>
        ensures bound { WritesAtMost result bytes.now }
        ensures tried { IfErr result (λ e. error_kind e ≢ ErrorKind.Interrupted) }
    {
        for _ in 0..TRIES {
            match self.device.write(bytes) {
                Err(error) if error.kind() == ErrorKind::Interrupted => {}
                done => return done,
            }
        }
        Err(interrupted_each_time())
    }

    fn flush(&mut self) -> io::Result<()>
        ensures tried { IfErr result (λ e. error_kind e ≢ ErrorKind.Interrupted) }
    {
        for _ in 0..TRIES {
            match self.device.flush() {
                Err(error) if error.kind() == ErrorKind::Interrupted => {}
                done => return done,
            }
        }
        Err(interrupted_each_time())
    }
}
