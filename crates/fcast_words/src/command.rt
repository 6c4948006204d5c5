//! The commands and their values.

use meta_text::Label;

/// A command, with a value for each of its options. An option that may be left out and has no default
/// is an `Option`.
#[derive(Drop)]
pub enum Command {
    /// Receive a session from a packet log.
    Replay {
        /// The session's identifier, up to 2^48 - 1.
        tsi: u64,
        /// How many bytes of symbols may be held.
        budget: u64,
        /// How many datagrams are taken.
        most: u64,
    },
    /// Receive a session over UDP.
    Recv {
        /// The session's identifier, up to 2^48 - 1.
        tsi: u64,
        /// How many bytes of symbols may be held.
        budget: u64,
        /// The IPv4 address to listen at.
        addr: [u8; 4],
        /// The UDP port to listen at.
        port: u64,
        /// How many datagrams are taken.
        count: u64,
    },
    /// Send the files of a catalog, over UDP or as a packet log.
    Send {
        /// The catalog's name.
        catalog: Label,
        /// The IPv4 address to send to; with none, a log is written.
        addr: Option<[u8; 4]>,
        /// The UDP port to send to; it is there just where the address is.
        port: Option<u64>,
        /// The length of an encoding symbol in bytes.
        symbol: u64,
        /// The most source symbols of a block.
        block: u64,
        /// The most encoding symbols of a block.
        maxn: u64,
        /// How many times the carousel goes round.
        cycles: u64,
        /// The session's identifier, up to 2^32 - 1.
        tsi: u64,
    },
    /// Print the packets of a log.
    Dump {
        /// How many datagrams are taken.
        most: u64,
    },
    /// Run a drill.
    Drill {
        /// The first number of the drill.
        start: u64,
    },
    /// Receive a session beside readers of what is installed.
    Listen {
        /// The session's identifier, up to 2^48 - 1.
        tsi: u64,
        /// How many bytes of symbols may be held.
        budget: u64,
        /// How many datagrams of a log are taken.
        most: u64,
        /// The IPv4 address to listen at; with none, a log is read.
        addr: Option<[u8; 4]>,
        /// The UDP port to listen at; it is there just where the address is.
        port: Option<u64>,
        /// How many datagrams are taken; it is there just where the address is.
        count: Option<u64>,
        /// How many readers there are.
        readers: u64,
    },
}
