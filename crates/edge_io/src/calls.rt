//! The calls of an object that are stated to fail.

ghost use Rattle.std.specs.Prelude.{◌≡◌, ◌≤◌, IsTrue, false};
ghost use Rattle.edge_io.specs.Faults.{Rose, one_more};
ghost use Rattle.edge_io.specs.StatedCalls.{fails_next, IsNextCall};

/// Counts the calls of one object, over all its methods, and fails those that are stated.
#[derive(Drop)]
pub struct Calls {
    /// The numbers of the calls that fail, counted from 1.
    pub fails: Vec<u32>,
    /// How many calls were made, up to `u64::MAX`.
    pub made: u64,
    /// How many of them failed, up to `u64::MAX`.
    pub failed: u64,
}

impl Calls {
    /// No call was made yet. Those that `fails` names will fail.
    pub fn new(fails: Vec<u32>) -> Calls
        ensures fails { result.fails ≡ fails }
        ensures made { result.made ≡ 0 }
        ensures failed { result.failed ≡ 0 }
    {
        Calls {
            fails,
            made: 0,
            failed: 0,
        }
    }

    /// Counts a call, and says whether it is stated to fail.
    pub fn fails_now(&mut self) -> bool
        ensures fails { result ≡ fails_next self.old }
        ensures next { IsNextCall self.old self.new }
        ensures fault { IsTrue result → self.new.failed ≡ one_more self.old.failed }
        ensures quiet { result ≡ false → self.new.failed ≡ self.old.failed }
        ensures rose { IsTrue result → Rose self.old.failed self.new.failed }
        ensures grows { self.old.failed ≤ self.new.failed }
    {
        self.made = self.made.saturating_add(1);
        let call = self.made;
        let fails = self.fails.iter().any(|number| u64::from(*number) == call);
        if fails {
            self.failed = self.failed.saturating_add(1);
        }
        fails
    }
}
