//! A rate that a sender keeps to.

ghost use Rattle.std.specs.Prelude.{◌≡◌, ◌≢◌, ◌+◌, ◌^◌, ◌-◌, ◌≤◌, ◌<◌, min};
ghost use Rattle.edge_real.specs.Pacing.{counted_from, time_of};

/// The fewest bytes that a datagram counts as: however short it is, it takes at least 832 bytes of
/// a receiver's buffer on Linux.
const LEAST: u64 = 512;

/// How many nanoseconds ahead of its rate a sender goes on without a wait, since a sleep ends some
/// 55,000 late.
const AHEAD: u64 = 500_000;

/// How many nanoseconds a sender makes up for, after a late wake or a pause of its own.
const LATE: u64 = 10_000_000;

/// A rate that a sender keeps to: a bucket that fills by so many bytes a second, and holds those of
/// 10 ms. Times are nanoseconds since the sender began.
#[derive(Clone, Copy)]
pub struct Pace {
    /// Bytes a second, or 0 for no limit.
    pub rate: u64,
    /// When all that was sent will have passed at this rate.
    pub free: u64,
}

impl Pace {
    /// The rate of a sender that begins.
    pub fn new(rate: u64) -> Pace
        ensures rate { result.rate ≡ rate }
        ensures free { result.free ≡ 0 }
    {
        Pace { rate, free: 0 }
    }

    /// Counts a datagram of so many bytes that is to go out now, and says for how many nanoseconds
    /// it has to wait.
    pub fn wait(&mut self, now: u64, bytes: u16) -> u64
        ensures rate { self.new.rate ≡ self.old.rate }
        ensures unlimited { self.old.rate ≡ 0 → result ≡ 0 }
        ensures near { self.old.rate ≢ 0 → counted_from self.old.free now ≤ now + 500000 → result ≡ 0 }
        ensures far { self.old.rate ≢ 0 → now + 500000 < counted_from self.old.free now → now + result ≡ counted_from self.old.free now }
        ensures free { self.old.rate ≢ 0 → self.new.free ≡ min (counted_from self.old.free now + time_of self.old.rate bytes) (2 ^ 64 - 1) }
    {
        if self.rate == 0 {
            return 0;
        }
        let from = self.free.max(now.saturating_sub(LATE));
        let time = u64::from(bytes).max(LEAST) * 1_000_000_000 / self.rate;
        self.free = from.saturating_add(time);
        let ahead = from.saturating_sub(now);
        if ahead <= AHEAD { 0 } else { ahead }
    }
}
