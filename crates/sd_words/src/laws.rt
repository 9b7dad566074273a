//! Laws of the definitions, for those who read the contracts.

ghost use Rattle.sd_words.specs.Plain.{FileWordsAskForTheirFiles, PlainWordsHaveTheTable, TreeWordsAskForTheirTree};

/// Plain words are taken, and what they ask for is the table's record.
pub fn plain_words_have_the_table()
    ensures { PlainWordsHaveTheTable }
{}

/// `--root DIR -- FIND REPLACE_WITH GLOB...` asks for the change of a tree, where `DIR` is nonempty and doesn't begin with
/// `-`.
pub fn tree_words_ask_for_their_tree()
    ensures { TreeWordsAskForTheirTree }
{}

/// `-- FIND REPLACE_WITH FILE...` asks for the change of these files.
pub fn file_words_ask_for_their_files()
    ensures { FileWordsAskForTheirFiles }
{}
