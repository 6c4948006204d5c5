//! The value of each option, in its range and with its default.

ghost use Rattle.std.specs.Prelude.{◌≡◌, option_and_then, option_map};
ghost use Rattle.fcast_words.specs.Addresses as addresses;
ghost use Rattle.fcast_words.specs.Pairs.{Pairs, given};
ghost use Rattle.fcast_words.specs.Table as table;
ghost use Rattle.fcast_words.specs.Words as words;
ghost use Rattle.fcast_words.specs.Words.{value_of};
ghost use Rattle.fcast_words.specs.Inner.Matches.{HasAll};

use crate::address::address_of;
use crate::number::{number_in, number_or};
use clap::ArgMatches;

pub(crate) fn tsi(matches: &ArgMatches<'_>) -> Option<u64>
    ensures { (ps : Pairs) → HasAll ps matches.now → result ≡ value_of table.tsi ps }
{
    number_or(matches.get_str("tsi"), 0, 281_474_976_710_655, Some(1))
}

pub(crate) fn budget(matches: &ArgMatches<'_>) -> Option<u64>
    ensures { (ps : Pairs) → HasAll ps matches.now → result ≡ value_of table.budget ps }
{
    number_or(
        matches.get_str("budget"),
        4_096,
        1_073_741_824,
        Some(67_108_864),
    )
}

pub(crate) fn most(matches: &ArgMatches<'_>) -> Option<u64>
    ensures { (ps : Pairs) → HasAll ps matches.now → result ≡ value_of table.most ps }
{
    number_or(
        matches.get_str("most"),
        1,
        4_294_967_295,
        Some(4_294_967_295),
    )
}

pub(crate) fn readers(matches: &ArgMatches<'_>) -> Option<u64>
    ensures { (ps : Pairs) → HasAll ps matches.now → result ≡ value_of table.readers ps }
{
    number_or(matches.get_str("readers"), 1, 16, Some(1))
}

pub(crate) fn symbol(matches: &ArgMatches<'_>) -> Option<u64>
    ensures { (ps : Pairs) → HasAll ps matches.now → result ≡ value_of table.symbol ps }
{
    number_or(matches.get_str("symbol"), 8, 65_475, Some(1_024))
}

pub(crate) fn block(matches: &ArgMatches<'_>) -> Option<u64>
    ensures { (ps : Pairs) → HasAll ps matches.now → result ≡ value_of table.block ps }
{
    number_or(matches.get_str("block"), 1, 255, Some(64))
}

pub(crate) fn maxn(matches: &ArgMatches<'_>) -> Option<u64>
    ensures { (ps : Pairs) → HasAll ps matches.now → result ≡ value_of table.maxn ps }
{
    number_or(matches.get_str("maxn"), 1, 255, Some(128))
}

pub(crate) fn cycles(matches: &ArgMatches<'_>) -> Option<u64>
    ensures { (ps : Pairs) → HasAll ps matches.now → result ≡ value_of table.cycles ps }
{
    number_or(matches.get_str("cycles"), 1, 1_000, Some(1))
}

pub(crate) fn sent_tsi(matches: &ArgMatches<'_>) -> Option<u64>
    ensures { (ps : Pairs) → HasAll ps matches.now → result ≡ value_of table.sent_tsi ps }
{
    number_or(matches.get_str("tsi"), 0, 4_294_967_295, Some(1))
}

pub(crate) fn start(matches: &ArgMatches<'_>) -> Option<u64>
    ensures { (ps : Pairs) → HasAll ps matches.now → result ≡ value_of table.start ps }
{
    number_or(
        matches.get_str("start"),
        0,
        18_446_744_073_709_551_615,
        None,
    )
}

pub(crate) fn addr(matches: &ArgMatches<'_>) -> Option<[u8; 4]>
    ensures { (ps : Pairs) → HasAll ps matches.now
        → result ≡ option_and_then addresses.address_of (given table.addr ps) }
{
    address_of(matches.get_str("addr")?)
}

pub(crate) fn port(matches: &ArgMatches<'_>) -> Option<u64>
    ensures { (ps : Pairs) → HasAll ps matches.now → result ≡ value_of table.port ps }
{
    port_of(matches.get_str("port")?)
}

pub(crate) fn count(matches: &ArgMatches<'_>) -> Option<u64>
    ensures { (ps : Pairs) → HasAll ps matches.now → result ≡ value_of table.count ps }
{
    count_of(matches.get_str("count")?)
}

fn port_of(text: &str) -> Option<u64>
    ensures { result ≡ words.port_of text.now }
{
    number_in(text, 1, 65_535)
}

fn count_of(text: &str) -> Option<u64>
    ensures { result ≡ words.count_of text.now }
{
    number_in(text, 1, 4_294_967_295)
}

/// An address and a port, both given or neither.
pub(crate) fn place_of(
    addr: Option<&str>,
    port: Option<&str>,
) -> Option<(Option<[u8; 4]>, Option<u64>)>
    ensures { result ≡ words.place_of (option_map (λ s. s.now) addr.entry)
        (option_map (λ s. s.now) port.entry) }
{
    match (addr, port) {
        (None, None) => Some((None, None)),
        (Some(addr), Some(port)) => {
            let addr = address_of(addr)?;
            let port = port_of(port)?;
            Some((Some(addr), Some(port)))
        }
        _ => None,
    }
}

/// An address, a port and a count, all three given or none.
pub(crate) fn source_of(
    addr: Option<&str>,
    port: Option<&str>,
    count: Option<&str>,
) -> Option<(Option<[u8; 4]>, Option<u64>, Option<u64>)>
    ensures { result ≡ words.source_of (option_map (λ s. s.now) addr.entry)
        (option_map (λ s. s.now) port.entry) (option_map (λ s. s.now) count.entry) }
{
    match (addr, port, count) {
        (None, None, None) => Some((None, None, None)),
        (Some(addr), Some(port), Some(count)) => {
            let addr = address_of(addr)?;
            let port = port_of(port)?;
            let count = count_of(count)?;
            Some((Some(addr), Some(port), Some(count)))
        }
        _ => None,
    }
}
