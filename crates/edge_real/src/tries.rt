//! How often a call is tried.

ghost use Rattle.std.specs.Prelude.{◌≡◌};
ghost use Rattle.std.specs.IoError.{error_kind};

use std::io::{Error, ErrorKind};

/// How often a call is tried that a signal interrupts.
pub const TRIES: u32 = 1_000;

/// The failure of a call that was interrupted each time. Its kind isn't `Interrupted`, so that
/// nobody above tries it again.
pub fn interrupted_each_time() -> Error
    ensures kind { error_kind result ≡ ErrorKind.Other }
{
    Error::new(ErrorKind::Other, "interrupted 1,000 times")
}
