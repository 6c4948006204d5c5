//! The choice among the candidates.
ghost use Rattle.std.specs.Prelude.{◌≡◌, option_map};
ghost use Rattle.receiver_core.specs.Inner.Choice.{is_above, beats_installed, beats, chosen};

use crate::candidate::Candidate;
use carousel_cid::Instance;

/// The best of the candidates.
pub fn choose(candidates: &[Candidate]) -> Option<&Candidate>
    ensures { option_map (λ c. c.now) result ≡ chosen candidates.now }
{
    let mut best: Option<&Candidate> = None;
    for candidate in candidates {
        if candidate.beats(best) {
            best = Some(candidate);
        }
    }
    best
}

impl Candidate {
    pub fn beats_installed(&self, installed: &Option<Instance>) -> bool
        ensures { result ≡ beats_installed installed.now self.now.number self.now.toi }
    {
        match installed {
            None => true,
            Some(instance) => is_above(
                self.number,
                self.toi,
                instance.number,
                instance.descriptor_toi,
            ),
        }
    }

    fn beats(&self, best: Option<&Candidate>) -> bool
        ensures { result ≡ beats (option_map (λ c. c.now) best.entry) self.now }
    {
        match best {
            None => true,
            Some(best) => is_above(self.number, self.toi, best.number, best.toi),
        }
    }
}

/// Whether the first of two descriptors is better: its number is greater, or its number is the same and its
/// identifier is less.
fn is_above(number: u32, toi: u128, other_number: u32, other_toi: u128) -> bool
    ensures { result ≡ is_above number toi other_number other_toi }
{
    number > other_number || (number == other_number && toi < other_toi)
}
