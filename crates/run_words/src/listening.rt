//! What the words of a listening are.
ghost use Rattle.std.specs.Prelude.{◌≡◌, ◌<◌, IfOk};
ghost use Rattle.std.specs.Option.{ForSome};
ghost use Rattle.run_words.specs.Commands.{listened, listening_in, listening_of};
ghost use Rattle.run_words.specs.Ranges.{HasNumbers, IfListening, IsPort};

use crate::command::udp;
use edge_io::Place;
use fcast_words::{Command, WordFault, read_words};
use meta_text::Label;
use run_base::{Bound, Settings};
use std::alloc::{AllocError, Global};

/// What a listening is told.
#[derive(Clone, Copy, PartialEq, Eq, Debug)]
pub struct Listening {
    /// What its receiver is told.
    pub settings: Settings,
    /// How many readers look on, from 1 to 16.
    pub readers: u32,
}

/// The listening that the words are. None: they are no listening.
#[tactic(auto, using(crate::proofs::Ranges::has_numbers))]
pub fn read_listening(alloc: Global, words: &[Label]) -> Result<Option<Listening>, AllocError>
    ensures is { IfOk result (λ l. l ≡ listening_of words.now) }
    ensures ranges { IfOk result IfListening }
{
    match read_words(alloc, words) {
        Ok(command) => Ok(listening_in(command)),
        Err(WordFault::Usage) => Ok(None),
        Err(WordFault::Memory) => Err(AllocError),
    }
}

fn listening_in(command: Command) -> Option<Listening>
    requires { HasNumbers command }
    ensures { result ≡ listening_in command }
{
    let Command::Listen {
        tsi,
        budget,
        most,
        addr,
        port,
        count,
        readers,
    } = command
    else {
        return None;
    };
    match listened(tsi, budget, most, addr, port, count) {
        Some(settings) => Some(Listening {
            settings,
            readers: readers as u32,
        }),
        None => None,
    }
}

/// What the receiver of a listening is told.
fn listened(
    tsi: u64,
    budget: u64,
    most: u64,
    addr: Option<[u8; 4]>,
    port: Option<u64>,
    count: Option<u64>,
) -> Option<Settings>
    requires { ForSome port IsPort }
    ensures { result ≡ listened tsi budget most addr port count }
{
    let (place, bound) = match (addr, port, count) {
        (None, None, None) => (Place::Log, Bound::Most(most)),
        (Some(addr), Some(port), Some(count)) => (udp(addr, port), Bound::Count(count)),
        _ => return None,
    };
    Some(Settings {
        tsi,
        budget,
        place,
        bound,
    })
}
