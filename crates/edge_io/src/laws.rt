//! Laws of the packet log: what the definitions compute is what the format says.

ghost use Rattle.std.specs.Prelude.{◌≡◌, ℕ, List, ◌++◌, drop, Option, None};
ghost use Rattle.edge_io.specs.Log.{magic, log, IsLog, IsCut, HasDatagrams, HasTornPlace, rest_of, datagrams_of, torn_at};

/// The datagrams of a text are those of its longest prefix that is a log, and none where no
/// prefix is a log. No other list is that.
pub fn datagrams()
    ensures has { (text : List ℕ) → HasDatagrams text (datagrams_of text) }
    ensures one { (text : List ℕ) (ds : List (List ℕ)) → HasDatagrams text ds → datagrams_of text ≡ ds }
{}

/// A text is torn where it isn't a log: at 0 where it doesn't start with the magic, else at the
/// place where the first item starts that isn't whole. No other place is that.
pub fn torn_place()
    ensures has { (text : List ℕ) → HasTornPlace text (torn_at text) }
    ensures one { (text : List ℕ) (torn : Option ℕ) → HasTornPlace text torn → torn_at text ≡ torn }
{}

/// A text that starts with the magic is the log of its datagrams and a rest that starts with no
/// whole item. There is no other way to cut it so.
pub fn cut()
    ensures has { (text more : List ℕ) → text ≡ magic ++ more → IsCut text (datagrams_of text) (rest_of (drop 8 text)) }
    ensures one { (text : List ℕ) (ds : List (List ℕ)) (rest : List ℕ) → IsCut text ds rest → datagrams_of text ≡ ds }
{}

/// A log has the datagrams that it was made of, and isn't torn.
pub fn whole_log()
    ensures datagrams { (text : List ℕ) (ds : List (List ℕ)) → IsLog text ds → datagrams_of text ≡ ds }
    ensures whole { (text : List ℕ) (ds : List (List ℕ)) → IsLog text ds → torn_at text ≡ None }
{}
