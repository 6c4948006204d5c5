//! Devices and a watcher that have no memory at stated calls, and never fail.

ghost use Rattle.std.specs.Prelude.{◌≡◌, [], None};
ghost use Rattle.edge_io.specs.Faults.{one_more};
ghost use Rattle.edge_io.specs.Shelved.{bare};

use edge_io::{
    Calls, Emit, FileFault, Files, Place, Shelf, SureEmit, SureFiles, SureShelf, SureText, Text,
    Trouble,
};
use watch_list::{Event, Unheard, Watch};

/// A text that has no memory at stated calls.
#[derive(Drop)]
pub struct WantingText {
    pub text: SureText,
    pub calls: Calls,
}

impl Text for WantingText {
    ghost told = { λ _. ⊥ };

    ghost written = { λ _. [] };

    ghost faults = { λ _. 0 };

    fn write(&mut self, bytes: &[u8]) -> Result<(), Trouble> {
        if self.calls.fails_now() {
            return Err(Trouble::Memory);
        }
        self.text.write(bytes)
    }
}

/// A shelf that has no memory at stated calls, over all three methods.
#[derive(Drop)]
pub struct WantingShelf {
    pub shelf: SureShelf,
    pub calls: Calls,
}

impl Shelf for WantingShelf {
    ghost told = { λ _. ⊥ };

    ghost holds = { λ _. bare };

    ghost faults = { λ _. 0 };

    fn begin(&mut self, number: u32) -> Result<(), Trouble> {
        if self.calls.fails_now() {
            return Err(Trouble::Memory);
        }
        self.shelf.begin(number)
    }

    fn put(&mut self, toi: u128, body: &[u8]) -> Result<(), Trouble> {
        if self.calls.fails_now() {
            return Err(Trouble::Memory);
        }
        self.shelf.put(toi, body)
    }

    fn finish(&mut self, manifest: &[u8]) -> Result<(), Trouble> {
        if self.calls.fails_now() {
            return Err(Trouble::Memory);
        }
        self.shelf.finish(manifest)
    }
}

/// A sink that has no memory at stated calls, over both methods.
#[derive(Drop)]
pub struct WantingEmit {
    pub sink: SureEmit,
    pub calls: Calls,
}

impl Emit for WantingEmit {
    ghost told = { λ _. ⊥ };

    ghost sent = { λ _. [] };

    ghost connected = { λ s. s.sink.connected };

    ghost faults = { λ _. 0 };

    fn connect(&mut self, place: &Place) -> Result<(), Trouble> {
        if self.calls.fails_now() {
            return Err(Trouble::Memory);
        }
        self.sink.connect(place)
    }

    fn send(&mut self, datagram: &[u8]) -> Result<(), Trouble> {
        if self.calls.fails_now() {
            return Err(Trouble::Memory);
        }
        self.sink.send(datagram)
    }
}

/// Files for which there is no memory at stated calls.
#[derive(Drop)]
pub struct WantingFiles {
    pub files: SureFiles,
    pub calls: Calls,
}

impl Files for WantingFiles {
    ghost told = { λ _. ⊥ };

    ghost found = { λ _ _. None };

    ghost faults = { λ _. 0 };

    ghost misses = { λ s. s.files.misses };

    fn read(&mut self, name: &str) -> Result<Vec<u8>, FileFault> {
        if self.calls.fails_now() {
            return Err(FileFault::Memory);
        }
        self.files.read(name)
    }
}

/// A watcher that has no memory at stated calls.
#[derive(Drop)]
pub struct WantingWatcher {
    heard: u64,
    calls: Calls,
}

impl WantingWatcher {
    pub fn new(fails: Vec<u32>) -> WantingWatcher {
        WantingWatcher {
            heard: 0,
            calls: Calls::new(fails),
        }
    }
}

impl Watch for WantingWatcher {
    ghost use Rattle.watch_list.specs.Hearing.{Hearing, HasHeard};

    ghost hearing = { λ s. record {
      number = s.heard;
      told = ⊥;
      events = [];
      faults = s.calls.failed;
      refuses = λ before event count. count ≡ one_more s.calls.failed;
    } };

    fn hear(&mut self, _event: &Event) -> Result<(), Unheard> {
        if self.heard == u64::MAX {
            self.calls.failed = self.calls.failed.saturating_add(1);
            return Err(Unheard::Deaf);
        }
        if self.calls.fails_now() {
            return Err(Unheard::Memory);
        }
        self.heard += 1;
        Ok(())
    }

    fn tally(&self) -> u64 {
        self.heard
    }

    fn heard(&self, _place: u64) -> Option<Event> {
        None
    }
}
