//! The words of the commands, and the options of each.

ghost use Rattle.std.specs.Prelude.{◌≡◌, map};
ghost use Rattle.fcast_words.specs.Table.{command_named, options_of};
ghost use Rattle.fcast_words.specs.Inner.Parser.{dashed};

/// The first word of a command line, which says the command.
#[derive(Clone, Copy)]
pub enum CommandWord {
    Replay,
    Recv,
    Send,
    Dump,
    Drill,
    Listen,
}

static REPLAY: [&str; 3] = ["tsi", "budget", "most"];

static RECV: [&str; 5] = ["tsi", "budget", "addr", "port", "count"];

static SEND: [&str; 8] = [
    "catalog", "addr", "port", "symbol", "block", "maxn", "cycles", "tsi",
];

static DUMP: [&str; 1] = ["most"];

static DRILL: [&str; 1] = ["start"];

static LISTEN: [&str; 7] = ["tsi", "budget", "most", "addr", "port", "count", "readers"];

/// The command that a word names.
pub(crate) fn command_named(word: &str) -> Option<CommandWord>
    ensures { result ≡ command_named word.now }
{
    match word {
        "replay" => Some(CommandWord::Replay),
        "recv" => Some(CommandWord::Recv),
        "send" => Some(CommandWord::Send),
        "dump" => Some(CommandWord::Dump),
        "drill" => Some(CommandWord::Drill),
        "listen" => Some(CommandWord::Listen),
        _ => None,
    }
}

/// The names of a command's options, without the dashes.
pub(crate) fn options_of(word: CommandWord) -> &'static [&'static str]
    ensures { map dashed (map (λ s. s.now) result.now) ≡ options_of word }
{
    match word {
        CommandWord::Replay => REPLAY.as_slice(),
        CommandWord::Recv => RECV.as_slice(),
        CommandWord::Send => SEND.as_slice(),
        CommandWord::Dump => DUMP.as_slice(),
        CommandWord::Drill => DRILL.as_slice(),
        CommandWord::Listen => LISTEN.as_slice(),
    }
}
