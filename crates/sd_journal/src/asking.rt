//! What the words ask for.

ghost use Rattle.std.specs.Prelude.{◌≡◌, ◌∷◌, [], ℕ, List, IsTrue, IfSome, IfNone, Some, None};
ghost use Rattle.sd_words.specs.Order.{IsTreeCommand};
ghost use Rattle.sd_journal.specs.Run.{AsksRecovery};

use sd_base::Words;
use sd_words::Options;

/// The option before the root of a sweep that is to be recovered.
const RECOVER: &str = "--recover";

/// Whether the words are `--recover` and a root, alone.
pub fn asks_recovery(words: &Words) -> bool
    ensures asks { IsTrue result → (root : List ℕ) × AsksRecovery words.now root }
    ensures only { (root : List ℕ) → AsksRecovery words.now root → IsTrue result }
{
    words.len() == 2 && words.get(0) == RECOVER
}

/// Whether options with a root are those of a command on its tree: no plan is written, and there are no rules to ignore by.
pub fn is_plain(options: &Options) -> bool
    ensures plain { IsTrue result → (root : List ℕ) → options.now.root ≡ Some root → IsTreeCommand options.now root }
    ensures only { (root : List ℕ) → IsTreeCommand options.now root → IsTrue result }
{
    !options.preview && options.ignore.is_none()
}
