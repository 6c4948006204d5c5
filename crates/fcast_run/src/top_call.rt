//! The top call.
ghost use Rattle.std.specs.Prelude.{◌≡◌, All};
ghost use Rattle.held_packets.specs.Session.{Session, IsSession};
ghost use Rattle.run_base.specs.Bounds.{datagrams_taken};
ghost use Rattle.run_base.specs.Statuses.{ReadsToEnd};
ghost use Rattle.run_base.specs.declared.settings.Settings.{Settings};
ghost use Rattle.run_headline.specs.Headline.{IsDatagramOf, InstallsBest};
ghost use Rattle.run_words.specs.Commands.{task_for};
ghost use Rattle.run_words.specs.declared.task.Task.TheVariants as tasks;
ghost use Rattle.run_tasks.specs.Runs.{Runs, Completes};
ghost use Rattle.run_tasks.specs.Tasks.{uses, outcome};
ghost use Rattle.watch_list.specs.Hearing.{Heard};

use crate::doing::attempt;
use edge_io::{Datagrams, Emit, Files, Shelf, Text};
use meta_text::Label;
use run_base::number;
use run_tasks::Edge;
use std::alloc::Global;
use watch_list::Watch;

/// Does what the words say, and answers the status.
///
/// It does five commands; words of the sixth, `listen`, are for `run_listen` and no command here. `replay` takes the
/// datagrams of the log, but no more than `--most`, keeps the packets of the session `--tsi` within the budget,
/// installs the best instance on the shelf where the list was read to its end, and writes the report to `text`. `recv`
/// does the same with the datagrams that come over UDP to `--addr` and `--port`, and ends its list with the last of
/// `--count`. `dump` writes a line for each datagram of the log, but for no more than `--most`. `send` plans the
/// session of the catalog `--catalog` from its files, and sends its datagrams, as a log or to `--addr` and `--port`.
/// `drill` sends drawn files over a link that loses, repeats and reorders datagrams by the draws that follow from
/// `--start`, has a receiver take them, and writes what came of it.
///
/// While `replay` and `recv` take their datagrams the watchers hear of each what became of it, and the number of another
/// instance where one is installed with it.
///
/// | status | meaning |
/// |---|---|
/// | 0 | the list was read to its end, an instance is installed, and no packet was over the budget; or it was dumped; or all was sent; or it was drilled and an instance is installed |
/// | 1 | the words are no command, or a `listen` |
/// | 2 | the list was read to its end, nothing is installed, and no packet was over the budget; or it was drilled and nothing is installed |
/// | 3 | the log is torn |
/// | 4, 5, 6 | the datagrams, the text or the sink, the shelf failed |
/// | 7 | the list was read to its end, and at least one packet was over the budget |
/// | 8 | the catalog has a bad line, or its session can't be planned: nothing was sent |
/// | 9 | there was no memory |
/// | 10 | a file isn't there, or has more than 16,777,216 bytes: nothing was sent |
/// | 11 | as many datagrams were taken as may be, and one more came |
/// | 12 | the files failed: nothing was sent |
pub fn run<D: Datagrams, E: Emit, F: Files, S: Shelf, T: Text>(
    alloc: Global,
    words: &[Label],
    edge: &mut Edge<D, E, F, S, T>,
    watchers: &mut Vec<Box<dyn Watch>>,
) -> u8
    // The headline: what is installed is the best of what the packets kept make ready, as the session has it.
    ensures headline { (c : Settings) → task_for words.now ≡ tasks.Receive c → (s : Session) → IsSession s
        → D.told edge.old.datagrams → S.told edge.old.shelf → T.told edge.old.text
        → All (IsDatagramOf s c.tsi) (datagrams_taken c (D.left edge.old.datagrams)) → ReadsToEnd result
        → InstallsBest s c (datagrams_taken c (D.left edge.old.datagrams)) (S.holds edge.old.shelf) (S.holds edge.new.shelf) (T.written edge.old.text) (T.written edge.new.text) }
    // How the task that the words are leaves each part of the outside, and what the watchers heard.
    ensures runs { Runs D.Datagrams E.Emit F.Files S.Shelf T.Text (task_for words.now) edge.old edge.new
        (λ events. Heard (λ v. hearing v) events watchers.old.items watchers.new.items) (watchers.new.items ≡ watchers.old.items) result }
    // Where no device failed in this call, the status is the outcome's, or that of want of memory.
    ensures completes { Completes D.Datagrams E.Emit F.Files S.Shelf T.Text (uses (task_for words.now))
        (outcome (task_for words.now) (D.left edge.old.datagrams) (D.torn edge.old.datagrams) (F.found edge.old.files)) edge.old edge.new result }
{
    number(attempt(alloc, words, edge, watchers))
}
