//! Each command with the values of its options.

ghost use Rattle.std.specs.Prelude.{◌≡◌, Some, None, IfOk, IfErr};
ghost use Rattle.fcast_words.specs.Pairs.{Pairs};
ghost use Rattle.fcast_words.specs.Words as spec;
ghost use Rattle.fcast_words.specs.Inner.Matches.{HasAll};
ghost use Rattle.fcast_words.specs.declared.fault.WordFault.TheVariants.{Usage};

use crate::command::Command;
use crate::command_word::CommandWord;
use crate::fault::WordFault;
use crate::options;
use clap::ArgMatches;
use meta_text::Label;
use std::alloc::Global;

/// The command of this word, with the values of its options.
pub(crate) fn command_with(
    alloc: Global,
    word: CommandWord,
    matches: &ArgMatches<'_>,
) -> Result<Command, WordFault>
    ensures ok { IfOk result (λ c.
        (ps : Pairs) → HasAll ps matches.now → spec.command_with word ps ≡ Some c) }
    ensures usage { IfErr result (λ e. e ≡ Usage
        → (ps : Pairs) → HasAll ps matches.now → spec.command_with word ps ≡ None) }
{
    match word {
        CommandWord::Replay => told(replay(matches)),
        CommandWord::Recv => told(recv(matches)),
        CommandWord::Send => send(alloc, matches),
        CommandWord::Dump => told(dump(matches)),
        CommandWord::Drill => told(drill(matches)),
        CommandWord::Listen => told(listen(matches)),
    }
}

fn told(command: Option<Command>) -> Result<Command, WordFault>
    ensures ok { IfOk result (λ c. command ≡ Some c) }
    ensures usage { IfErr result (λ e. command ≡ None) }
{
    command.ok_or(WordFault::Usage)
}

fn replay(matches: &ArgMatches<'_>) -> Option<Command>
    ensures { (ps : Pairs) → HasAll ps matches.now → result ≡ spec.replay_of ps }
{
    let tsi = options::tsi(matches)?;
    let budget = options::budget(matches)?;
    let most = options::most(matches)?;
    Some(Command::Replay { tsi, budget, most })
}

fn recv(matches: &ArgMatches<'_>) -> Option<Command>
    ensures { (ps : Pairs) → HasAll ps matches.now → result ≡ spec.recv_of ps }
{
    let tsi = options::tsi(matches)?;
    let budget = options::budget(matches)?;
    let addr = options::addr(matches)?;
    let port = options::port(matches)?;
    let count = options::count(matches)?;
    Some(Command::Recv {
        tsi,
        budget,
        addr,
        port,
        count,
    })
}

fn send(alloc: Global, matches: &ArgMatches<'_>) -> Result<Command, WordFault>
    ensures ok { IfOk result (λ c.
        (ps : Pairs) → HasAll ps matches.now → spec.send_of ps ≡ Some c) }
    ensures usage { IfErr result (λ e. e ≡ Usage
        → (ps : Pairs) → HasAll ps matches.now → spec.send_of ps ≡ None) }
{
    let catalog = matches.get_str("catalog").ok_or(WordFault::Usage)?;
    let (addr, port) = options::place_of(matches.get_str("addr"), matches.get_str("port")).ok_or(
        WordFault::Usage,
    )?;
    let symbol = options::symbol(matches).ok_or(WordFault::Usage)?;
    let block = options::block(matches).ok_or(WordFault::Usage)?;
    let maxn = options::maxn(matches).ok_or(WordFault::Usage)?;
    let cycles = options::cycles(matches).ok_or(WordFault::Usage)?;
    let tsi = options::sent_tsi(matches).ok_or(WordFault::Usage)?;
    let catalog = Label::new(String::from_str(alloc, catalog)?);
    Ok(Command::Send {
        catalog,
        addr,
        port,
        symbol,
        block,
        maxn,
        cycles,
        tsi,
    })
}

fn dump(matches: &ArgMatches<'_>) -> Option<Command>
    ensures { (ps : Pairs) → HasAll ps matches.now → result ≡ spec.dump_of ps }
{
    let most = options::most(matches)?;
    Some(Command::Dump { most })
}

fn drill(matches: &ArgMatches<'_>) -> Option<Command>
    ensures { (ps : Pairs) → HasAll ps matches.now → result ≡ spec.drill_of ps }
{
    let start = options::start(matches)?;
    Some(Command::Drill { start })
}

fn listen(matches: &ArgMatches<'_>) -> Option<Command>
    ensures { (ps : Pairs) → HasAll ps matches.now → result ≡ spec.listen_of ps }
{
    let tsi = options::tsi(matches)?;
    let budget = options::budget(matches)?;
    let most = options::most(matches)?;
    let (addr, port, count) = options::source_of(
        matches.get_str("addr"),
        matches.get_str("port"),
        matches.get_str("count"),
    )?;
    let readers = options::readers(matches)?;
    Some(Command::Listen {
        tsi,
        budget,
        most,
        addr,
        port,
        count,
        readers,
    })
}
