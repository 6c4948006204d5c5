//! How many datagrams of a list are taken.
ghost use Rattle.std.specs.Prelude.{◌≡◌, ◌<◌, ◌^◌};
ghost use Rattle.run_base.specs.Bounds.{limit, LessOne};

/// How many datagrams of a list are taken.
#[derive(Clone, Copy, PartialEq, Eq, Debug)]
pub enum Bound {
    /// No more than this many, and one more is asked for: that there is none.
    Most(u64),
    /// The list is read to its end with the last of this many.
    Count(u64),
}

impl Bound {
    /// How many datagrams are taken, where there are as many.
    pub fn limit(self) -> u64
        ensures is { result ≡ limit self }
        ensures fits { result < 2 ^ 64 }
    {
        match self {
            Bound::Most(most) => most,
            Bound::Count(count) => count,
        }
    }

    /// What is left of it once one datagram more is taken: nothing where none may be.
    pub fn one_less(self) -> Option<Bound>
        ensures { LessOne result self }
    {
        match self {
            Bound::Most(0) | Bound::Count(0) => None,
            Bound::Most(most) => Some(Bound::Most(most - 1)),
            Bound::Count(count) => Some(Bound::Count(count - 1)),
        }
    }
}
