//! The random words that a tag draws.
ghost use Rattle.std.specs.Prelude.{◌≡◌, ◌^◌, ◌<◌, ◌≤◌, length, All, IfOk, vec_len};

use bit_strings::OutOfMemory;
use std::alloc::Global;
use std::marker::Model;

/// The words that a tag draws its slots, RN16s, handles and covers from (6.3.2.5 Tag random or pseudo-random number
/// generator): 1 to 256 words, given by the scenario (profile). A contract sees the list of them.
#[derive(Drop)]
pub struct DrawWords {
    words: Vec<u16>,
}

impl Model for DrawWords {
    ghost use Rattle.std.specs.Prelude.{List, ℕ};
    ghost use Rattle.session_flags.specs.DrawList.{IsDrawList};

    ghost Value = { List ℕ };

    ghost view = { λ draw. draw.words.items };

    ghost invariant = { λ draw. IsDrawList draw.words.items };
}

impl DrawWords {
    /// A copy of these words, of which there are 1 to 256.
    pub fn new(alloc: Global, words: &[u16]) -> Result<DrawWords, OutOfMemory>
        requires some { 1 ≤ length words.now }
        requires few { length words.now ≤ 256 }
        ensures { IfOk result (λ draw. draw ≡ words.now) }
    {
        let words = Vec::from_slice(alloc, words)?;
        Ok(DrawWords { words })
    }

    /// These words themselves, of which there are 1 to 256.
    pub fn of(words: Vec<u16>) -> DrawWords
        requires some { 1 ≤ vec_len words }
        requires few { vec_len words ≤ 256 }
        ensures { result ≡ words.items }
    {
        DrawWords { words }
    }

    /// Has these words in place of those before, of which there are as many.
    pub fn replace(&mut self, words: &[u16])
        requires { length words.now ≡ length self.old }
        ensures { self.new ≡ words.now }
    {
        self.words.copy_from_slice(words);
    }

    /// The words that the tag draws, in their order.
    pub fn words(&self) -> &[u16]
        ensures value { result.now ≡ self.now }
        ensures some { 1 ≤ length self.now }
        ensures few { length self.now ≤ 256 }
        ensures small { All (λ word. word < 2 ^ 16) self.now }
    {
        self.words.as_slice()
    }
}
