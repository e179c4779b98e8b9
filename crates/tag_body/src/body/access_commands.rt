//! What the access commands do with a tag's memory and locks.
ghost use Rattle.std.specs.Prelude.{◌≡◌, ◌≤◌, [], ◌∷◌};
ghost use Rattle.reply_grammar.specs.Replies.{IsReply, reply_room, spelling};
ghost use Rattle.lock_rules.specs.Lock.{locks_after};
ghost use Rattle.tag_memory.specs.ReadsAndWrites.{words_read, banks_after_write, banks_after_erase};
ghost use Rattle.tag_body.specs.MemoryAnswers.{HasFewWords, has_user, read_answer, change_answer, changed_or};

use super::Body;
use bit_strings::{Bits, Count1, Payload, Pointer};
use command_fields::{Bank, BlockWords};
use lock_rules::{ErrorCode, Level};
use reply_grammar::{encode_error, encode_words};

impl Body {
    /// Writes the bits of what a Read answers: the words, or an error.
    pub fn encode_read(
        &self,
        level: Level,
        bank: Bank,
        pointer: Pointer,
        count: u8,
        handle: u16,
        out: &mut Bits,
    )
        requires { reply_room ≤ out.old.capacity }
        ensures bits { out.new
            ≡ record out.old {
              items = spelling
                  (read_answer (words_read self.now.memory self.now.locks level bank pointer count))
                  handle;
            } }
        ensures in_range { IsReply
            (read_answer (words_read self.now.memory self.now.locks level bank pointer count)) }
        ensures few { HasFewWords
            (read_answer (words_read self.now.memory self.now.locks level bank pointer count)) }
    {
        let parts = &*self.parts;
        match parts
            .memory
            .readable(bank, pointer, count, level, &parts.locks)
        {
            Ok(words) => encode_words(words, handle, out),
            Err(code) => encode_error(code.code(), handle, out),
        }
    }

    /// Writes a word, or refuses and changes nothing.
    pub fn write(
        &mut self,
        level: Level,
        bank: Bank,
        pointer: Pointer,
        word: u16,
    ) -> Result<(), ErrorCode>
        ensures answer { change_answer result
            ≡ change_answer
            (banks_after_write self.old.memory self.old.locks level bank pointer (word ∷ [])) }
        ensures after { self.new
            ≡ record self.old {
              memory = changed_or self.old.memory
                  (banks_after_write self.old.memory self.old.locks level bank pointer (word ∷ []));
            } }
    {
        let parts = &mut *self.parts;
        parts.memory.write(bank, pointer, word, level, &parts.locks)
    }

    /// Writes words, all of them, or refuses and changes nothing.
    pub fn block_write(
        &mut self,
        level: Level,
        bank: Bank,
        pointer: Pointer,
        words: &BlockWords,
    ) -> Result<(), ErrorCode>
        ensures answer { change_answer result
            ≡ change_answer
            (banks_after_write self.old.memory self.old.locks level bank pointer words.now) }
        ensures after { self.new
            ≡ record self.old {
              memory = changed_or self.old.memory
                  (banks_after_write self.old.memory self.old.locks level bank pointer words.now);
            } }
    {
        let parts = &mut *self.parts;
        parts
            .memory
            .block_write(bank, pointer, words, level, &parts.locks)
    }

    /// Erases so many words, or refuses and changes nothing.
    pub fn block_erase(
        &mut self,
        level: Level,
        bank: Bank,
        pointer: Pointer,
        count: Count1,
    ) -> Result<(), ErrorCode>
        ensures answer { change_answer result
            ≡ change_answer
            (banks_after_erase self.old.memory self.old.locks level bank pointer count) }
        ensures after { self.new
            ≡ record self.old {
              memory = changed_or self.old.memory
                  (banks_after_erase self.old.memory self.old.locks level bank pointer count);
            } }
    {
        let parts = &mut *self.parts;
        parts
            .memory
            .block_erase(bank, pointer, count, level, &parts.locks)
    }

    /// Changes the pairs of lock bits by a Lock payload, or refuses and changes nothing.
    pub fn lock(&mut self, payload: Payload) -> Result<(), ErrorCode>
        ensures answer { change_answer result
            ≡ change_answer (locks_after self.old.locks payload (has_user self.old)) }
        ensures after { self.new
            ≡ record self.old {
              locks = changed_or self.old.locks
                  (locks_after self.old.locks payload (has_user self.old));
            } }
    {
        let parts = &mut *self.parts;
        let has_user = parts.memory.size(Bank::User) > 0;
        parts.locks = parts.locks.apply(payload, has_user)?;
        Ok(())
    }
}
