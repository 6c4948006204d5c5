//! The commands of `run`.
ghost use Rattle.std.specs.Prelude.{◌≡◌, IfOk};
ghost use Rattle.std.specs.Option.{ForSome};
ghost use Rattle.edge_io.specs.declared.place.Place.TheVariants.{Udp};
ghost use Rattle.run_words.specs.Commands.{task_for, task_of, place_of};
ghost use Rattle.run_words.specs.Ranges.{HasNumbers, IsFit, IsPort};

use crate::task::Task;
use edge_io::Place;
use fcast_words::{Command, WordFault, read_words};
use meta_text::Label;
use run_base::{Bound, Settings};
use run_send::Sending;
use sender_plan::Params;
use std::alloc::{AllocError, Global};

/// What the words are to do.
#[tactic(auto, using(crate::proofs::Ranges::has_numbers))]
pub fn read_task(alloc: Global, words: &[Label]) -> Result<Task, AllocError>
    ensures task { IfOk result (λ t. t ≡ task_for words.now) }
    ensures fit { IfOk result IsFit }
{
    match read_words(alloc, words) {
        Ok(command) => Ok(task_of(command)),
        Err(WordFault::Usage) => Ok(Task::Usage),
        Err(WordFault::Memory) => Err(AllocError),
    }
}

fn task_of(command: Command) -> Task
    requires { HasNumbers command }
    ensures { result ≡ task_of command }
{
    match command {
        Command::Replay { tsi, budget, most } => Task::Receive(Settings {
            tsi,
            budget,
            place: Place::Log,
            bound: Bound::Most(most),
        }),
        Command::Recv {
            tsi,
            budget,
            addr,
            port,
            count,
        } => Task::Receive(Settings {
            tsi,
            budget,
            place: udp(addr, port),
            bound: Bound::Count(count),
        }),
        Command::Dump { most } => Task::Dump(most),
        Command::Send {
            catalog,
            addr,
            port,
            symbol,
            block,
            maxn,
            cycles,
            tsi,
        } => match place_of(addr, port) {
            Some(place) => Task::Send(Sending {
                catalog,
                place,
                params: Params {
                    tsi: tsi as u32,
                    symbol: symbol as u16,
                    max_block: block as u8,
                    max_n: maxn as u8,
                    cycles: cycles as u16,
                },
            }),
            None => Task::Usage,
        },
        Command::Drill { start } => Task::Drill(start),
        Command::Listen { .. } => Task::Usage,
    }
}

/// Where the datagrams of a send go.
fn place_of(addr: Option<[u8; 4]>, port: Option<u64>) -> Option<Place>
    requires { ForSome port IsPort }
    ensures { result ≡ place_of addr port }
{
    match (addr, port) {
        (None, None) => Some(Place::Log),
        (Some(addr), Some(port)) => Some(udp(addr, port)),
        _ => None,
    }
}

pub fn udp(addr: [u8; 4], port: u64) -> Place
    requires { IsPort port }
    ensures { result ≡ Udp addr port }
{
    Place::Udp {
        ip: addr,
        port: port as u16,
    }
}
