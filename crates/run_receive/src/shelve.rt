//! Installing an instance on the shelf.
ghost use Rattle.std.specs.Prelude.{◌≡◌, ◌≤◌, ◌++◌, ◌∷◌, [], map, OnOk, OnErr, IsErrOf};
ghost use Rattle.edge_io.specs.Faults.{Rose};
ghost use Rattle.edge_io.specs.ShelfCalls.{after, Begin, Finish};
ghost use Rattle.run_receive.specs.Outcome.{put_of};
ghost use Rattle.run_base.specs.Parts.{AcceptsFewer};

use carousel_cid::FileOf;
use edge_io::{Shelf, Trouble};

/// Gives the shelf an instance: `begin`, `put` for each file in order, and `finish`.
pub fn install<S: Shelf>(
    shelf: &mut S,
    number: u32,
    files: &[FileOf],
    manifest: &[u8],
) -> Result<(), Trouble>
    ensures ok { OnOk result (S.told shelf.old → S.holds shelf.new ≡ after (Begin number ∷ (map put_of files.now ++ Finish manifest.now ∷ [])) (S.holds shelf.old)) }
    ensures err { OnErr result (S.told shelf.old → AcceptsFewer (Begin number ∷ (map put_of files.now ++ Finish manifest.now ∷ [])) (S.holds shelf.old) (S.holds shelf.new)) }
    ensures rose { IsErrOf result Trouble.Failed → Rose (S.faults shelf.old) (S.faults shelf.new) }
    ensures grows { S.faults shelf.old ≤ S.faults shelf.new }
{
    shelf.begin(number)?;
    put_all(shelf, files)?;
    shelf.finish(manifest)
}

/// Gives the shelf each file in order.
fn put_all<S: Shelf>(shelf: &mut S, files: &[FileOf]) -> Result<(), Trouble>
    ensures told { S.told shelf.old → S.told shelf.new }
    ensures ok { OnOk result (S.told shelf.old → S.holds shelf.new ≡ after (map put_of files.now) (S.holds shelf.old)) }
    ensures err { OnErr result (S.told shelf.old → AcceptsFewer (map put_of files.now) (S.holds shelf.old) (S.holds shelf.new)) }
    ensures rose { IsErrOf result Trouble.Failed → Rose (S.faults shelf.old) (S.faults shelf.new) }
    ensures grows { S.faults shelf.old ≤ S.faults shelf.new }
{
    for file in files {
        shelf.put(file.toi, file.body.as_slice())?;
    }
    Ok(())
}
