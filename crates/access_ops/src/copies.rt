//! Copies of lists that stand in fixed room, which take no memory.
ghost use Rattle.std.specs.Prelude.{◌≡◌};

use command_grammar::BlockWords;
use reply_grammar::ReadWords;

/// Puts the words of a Read in place of others.
pub(crate) fn copy_words(words: &ReadWords, copy: &mut ReadWords)
    ensures { copy.new ≡ words.now }
{
    copy.clear();
    for word in words.as_slice() {
        copy.push_reserved(*word);
    }
}

/// A copy of the words of a BlockWrite.
pub(crate) fn copy_of_block(block: &BlockWords) -> BlockWords
    ensures { result ≡ block.now }
{
    BlockWords::of(block.as_slice())
}
