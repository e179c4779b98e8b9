//! How often each tag was listed.
ghost use Rattle.std.specs.Prelude.{◌≡◌, ◌<◌, ◌^◌, ◌+◌, ◌++◌, ℕ, List, [], ◌∷◌, length, ◌≤◌, ◌↔◌, OnErr, OnOk, IfOk, IfSome, IsNone, Some, slice_get};
ghost use Rattle.report_lines.specs.Entries.{seen_of_listed};
ghost use Rattle.report_lines.specs.SeenCounts.{seen_counts, seen_more, total_of};

use bit_strings::OutOfMemory;
use indexmap::IndexMap;
use reply_grammar::EpcWords;
use std::alloc::{AllocError, Global};
use std::marker::Model;

/// What an EPC reply brings of a tag.
#[derive(Drop, PartialEq, Eq, Hash)]
pub(crate) struct Listed {
    pc: u16,
    epc: EpcWords,
}

/// How often each pair of PC and EPC was listed, in the order in which they came first. A contract sees it
/// as the list of the pairs with their counts.
#[derive(Drop)]
pub struct SeenCounts {
    counts: IndexMap<Listed, u64>,
}

impl Model for SeenCounts {
    ghost use Rattle.std.specs.Prelude.{List};
    ghost use Rattle.report_lines.specs.SeenCounts.{SeenCount};
    ghost use Rattle.report_lines.specs.Entries.{seen_of_listed};

    ghost Value = { List SeenCount };

    ghost view = { λ a. seen_of_listed a.counts.entries };
}

/// A copy of the words of an EPC that was listed, to be kept with its count.
fn copy_of(epc: &EpcWords) -> Result<EpcWords, OutOfMemory>
    ensures { IfOk result (λ copy. copy ≡ epc.now) }
{
    epc.clone()
}

/// Counts one more of this pair.
fn raise(counts: &mut IndexMap<Listed, u64>, listed: Listed) -> Result<(), OutOfMemory>
    ensures more { OnOk result
        (seen_of_listed counts.new.entries
        ≡ seen_more (seen_of_listed counts.old.entries) (listed.pc, listed.epc)) }
    ensures err { OnErr result (counts.new.entries ≡ counts.old.entries) }
{
    let count = counts.entry(listed)?.or_insert(0);
    let Some(more) = count.checked_add(1) else {
        return Err(AllocError);
    };
    *count = more;
    Ok(())
}

impl SeenCounts {
    /// No pair was listed yet.
    pub fn new(alloc: Global) -> SeenCounts
        ensures { result ≡ [] }
    {
        SeenCounts {
            counts: IndexMap::new(alloc),
        }
    }

    /// Counts one more of this pair. After an error nothing is changed; it is one too where the count has no room for one more.
    pub fn count(&mut self, pc: u16, epc: &EpcWords) -> Result<(), OutOfMemory>
        ensures more { OnOk result (self.new ≡ seen_more self.old (pc, epc.now)) }
        ensures listed { (pairs : List (ℕ × List ℕ)) → self.old ≡ seen_counts pairs
            → OnOk result (self.new ≡ seen_counts (pairs ++ (pc, epc.now) ∷ [])) }
        ensures err { OnErr result (self.new ≡ self.old) }
    {
        let epc = copy_of(epc)?;
        raise(&mut self.counts, Listed { pc, epc })
    }

    /// How many pairs were listed.
    pub fn len(&self) -> usize
        ensures { result ≡ length self.now }
    {
        self.counts.len()
    }

    /// How often pairs of PC and EPC were listed in all: the sum of their counts.
    pub fn total(&self) -> u64
        requires { total_of self.now < 2 ^ 64 }
        ensures { result ≡ total_of self.now }
    {
        self.counts.values().sum()
    }

    /// The pair with this number, counted from 0 in the order in which they came first: how often it was
    /// listed, its PC and its EPC; none exactly past the end.
    pub fn get(&self, at: usize) -> Option<(u64, u16, &EpcWords)>
        ensures value { IfSome result
            (λ it. slice_get self.now at
            ≡ Some (record { pc = it.1; epc = it.2.now; count = it.0 })) }
        ensures none { IsNone result ↔ (length self.now ≤ at) }
    {
        let (listed, count) = self.counts.get_index(at)?;
        Some((*count, listed.pc, &listed.epc))
    }
}
