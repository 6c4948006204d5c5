//! Words that are handed over, and a command with its values in a form that can be compared.

use super::same::same;
use fcast_words::{Command, WordFault, read_words};
use meta_text::Label;
use std::alloc::{AllocError, Global};
use std::process::Abort;
use std::test::Fail;

/// Which command it is.
#[derive(Clone, Copy, PartialEq, Debug)]
pub enum Kind {
    Replay,
    Recv,
    Send,
    Dump,
    Drill,
    Listen,
}

/// Which command it is, its address, and its other values in the order of its fields, without a catalog's name.
#[derive(Clone, Copy, PartialEq, Debug)]
pub struct Told {
    pub kind: Kind,
    pub addr: Option<[u8; 4]>,
    pub numbers: [Option<u64>; 6],
}

/// The first six of these numbers.
pub fn six(numbers: &[Option<u64>]) -> [Option<u64>; 6] {
    let mut out = [None; 6];
    for (to, from) in out.iter_mut().zip(numbers) {
        *to = *from;
    }
    out
}

/// What a command says.
pub fn values_of(command: &Command) -> Told {
    match command {
        Command::Replay { tsi, budget, most } => Told {
            kind: Kind::Replay,
            addr: None,
            numbers: six(&[Some(*tsi), Some(*budget), Some(*most)]),
        },
        Command::Recv {
            tsi,
            budget,
            addr,
            port,
            count,
        } => Told {
            kind: Kind::Recv,
            addr: Some(*addr),
            numbers: six(&[Some(*tsi), Some(*budget), Some(*port), Some(*count)]),
        },
        Command::Send {
            catalog: _,
            addr,
            port,
            symbol,
            block,
            maxn,
            cycles,
            tsi,
        } => Told {
            kind: Kind::Send,
            addr: *addr,
            numbers: [
                *port,
                Some(*symbol),
                Some(*block),
                Some(*maxn),
                Some(*cycles),
                Some(*tsi),
            ],
        },
        Command::Dump { most } => Told {
            kind: Kind::Dump,
            addr: None,
            numbers: six(&[Some(*most)]),
        },
        Command::Drill { start } => Told {
            kind: Kind::Drill,
            addr: None,
            numbers: six(&[Some(*start)]),
        },
        Command::Listen {
            tsi,
            budget,
            most,
            addr,
            port,
            count,
            readers,
        } => Told {
            kind: Kind::Listen,
            addr: *addr,
            numbers: [
                Some(*tsi),
                Some(*budget),
                Some(*most),
                *port,
                *count,
                Some(*readers),
            ],
        },
    }
}

/// The name of a command's catalog; empty where it has none.
pub fn catalog_of(command: &Command) -> &str {
    match command {
        Command::Send { catalog, .. } => catalog.as_str(),
        _ => "",
    }
}

/// One word more.
pub fn add(words: &mut Vec<Label>, word: &str) -> Result<(), AllocError> {
    let alloc = *words.allocator();
    words.push(Label::new(String::from_str(alloc, word)?))?;
    Ok(())
}

/// These words, as they are handed over.
pub fn words_of(alloc: Global, list: &[&str]) -> Result<Vec<Label>, AllocError> {
    let mut words = Vec::new(alloc);
    for word in list {
        add(&mut words, word)?;
    }
    Ok(words)
}

/// Asserts that the words are this command.
pub fn check_told(
    rt: &impl Abort,
    alloc: Global,
    words: &[Label],
    wanted: Told,
    catalog: &str,
    row: u32,
) -> Result<(), Fail> {
    let command = read_words(alloc, words).ok().ok_or("a command")?;
    same(rt, &values_of(&command), &wanted, row);
    same(rt, &catalog_of(&command), &catalog, row);
    Ok(())
}

/// Asserts that the words are no command.
pub fn check_usage(rt: &impl Abort, alloc: Global, words: &[Label], row: u32) {
    same(
        rt,
        &read_words(alloc, words).err(),
        &Some(WordFault::Usage),
        row,
    );
}
