//! The tag that a line describes.
ghost use Rattle.std.specs.Prelude.{◌≡◌, false, IfOk, IfSome, IfNone};

use bit_strings::{List, OutOfMemory};
use lock_rules::Locks;
use session_flags::DrawWords;
use std::alloc::Global;
use std::marker::Model;
use tag_memory::{BankImage, epc_fits};
use text_fields::Words;

/// A tag as a scenario describes it.
#[derive(Drop)]
pub struct TagSpec {
    /// What its memory is made with.
    pub image: BankImage,
    /// The lock bits of its fields.
    pub locks: Locks,
    /// The random words that it draws.
    pub words: DrawWords,
}

/// A tag as the fields of a line spell it. It holds no memory of its own but borrows the line's. A
/// contract sees it as the tag.
#[derive(Drop)]
pub struct TagText<'a> {
    kill: u32,
    access: u32,
    locks: Locks,
    epc: Words<'a>,
    tid: Words<'a>,
    user: Words<'a>,
    words: Words<'a>,
}

impl<'a> Model for TagText<'a> {
    ghost use Rattle.std.specs.Prelude.{◌≡◌};
    ghost use Rattle.scenario_lines.specs.declared.tag.TagSpec.{TagSpec};
    ghost use Rattle.scenario_lines.specs.TagForm.{IsTag, tag_spec_of};

    ghost Value = { TagSpec };

    ghost view = { λ a. tag_spec_of a.kill a.access a.locks a.epc a.tid a.user a.words };

    ghost invariant = { λ a. IsTag
        (tag_spec_of a.kill a.access a.locks a.epc a.tid a.user a.words) };
}

impl<'a> TagText<'a> {
    ghost use Rattle.scenario_lines.specs.TagForm.{IsTag, IsTagForm, epc_length, tag_spec_of};
    ghost use Rattle.tag_memory.specs.Image.{pc_fits};

    /// The tag of these fields, each of which is in its range. None exactly where the EPC that PC
    /// announces passes its bank.
    pub(crate) fn new(
        kill: u32,
        access: u32,
        locks: Locks,
        epc: Words<'a>,
        tid: Words<'a>,
        user: Words<'a>,
        words: Words<'a>,
    ) -> Option<TagText<'a>>
        requires { IsTagForm (tag_spec_of kill access locks epc tid user words) }
        ensures value { IfSome result
            (λ tag. tag ≡ tag_spec_of kill access locks epc.entry tid.entry user.entry
            words.entry) }
        ensures legal { IfSome result IsTag }
        ensures none { IfNone result
            (pc_fits (tag_spec_of kill access locks epc.entry tid.entry user.entry
            words.entry).image ≡ false) }
    {
        let pc = epc.first()?;
        if !epc_fits(pc, 1 + epc.len() as usize) {
            return None;
        }
        Some(TagText {
            kill,
            access,
            locks,
            epc,
            tid,
            user,
            words,
        })
    }

    /// How many words the EPC has that PC announces: L, the five upper bits of PC (6.3.2.1.2.2).
    pub fn epc_length(&self) -> u32
        ensures { result ≡ epc_length self.now }
    {
        match self.epc.first() {
            Some(pc) => u32::from(pc >> 11),
            // There is a PC.
            None => 0,
        }
    }

    /// The image of the tag's memory, copied.
    fn image(&self, alloc: Global) -> Result<BankImage, OutOfMemory>
        ensures { IfOk result (λ image. image ≡ self.now.image) }
    {
        let epc = self.epc.to_vec(alloc)?;
        let tid = self.tid.to_vec(alloc)?;
        let user = self.user.to_vec(alloc)?;
        Ok(BankImage {
            kill: self.kill,
            access: self.access,
            epc: List::new(epc),
            tid: List::new(tid),
            user: List::new(user),
        })
    }

    /// The tag, in memory of its own.
    pub fn to_spec(&self, alloc: Global) -> Result<TagSpec, OutOfMemory>
        ensures { IfOk result (λ tag. tag ≡ self.now) }
    {
        let words = self.words.to_vec(alloc)?;
        Ok(TagSpec {
            image: self.image(alloc)?,
            locks: self.locks,
            words: DrawWords::of(words),
        })
    }
}
