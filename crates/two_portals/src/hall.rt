//! The tags that an interrogator reads.
ghost use Rattle.std.specs.Prelude.{◌≡◌, ◌+◌, ◌≤◌, ◌++◌, List, length};
ghost use Rattle.q_round.specs.SpecValue.{SpecValue, IsLegalSpec};
ghost use Rattle.q_round.specs.declared.round.RoundEnd.TheVariants as ends;
ghost use Rattle.tag_machine.specs.TagValue.{TagValue};
ghost use Rattle.two_portals.specs.Played.{Played, AreReady, IsQuietRound, ListsItsTags};

use bit_strings::Bounded;
use q_round::{RoundEnd, RoundSpec};
use reply_grammar::EpcWords;

/// The PC and the EPC of each tag that was listed, in the order in which they came.
pub type Pairs = Bounded<(u16, EpcWords)>;

/// Tags that an interrogator reads by whole rounds. Nothing befalls them beside these rounds.
pub trait Hall {
    /// The tags, in the order of their numbers.
    ghost tags: { Self → List TagValue };

    /// What a round with these parameters lists of these tags, how it ends, and what becomes of them.
    ghost played: { List TagValue → SpecValue → Played };

    /// Plays a round, and adds the PC and the EPC of each tag that it lists, in the order in which they come.
    fn round(&mut self, spec: &RoundSpec, heard: &mut Pairs) -> RoundEnd
        requires room { length heard.old.items + length (tags self.old) ≤ heard.old.capacity }
        ensures pairs { heard.new
            ≡ record heard.old {
              items = heard.old.items
                  ++ (played (tags self.old) spec.now).pairs;
            } }
        ensures end { result ≡ (played (tags self.old) spec.now).end }
        ensures tags { tags self.new ≡ (played (tags self.old) spec.now).tags };

    /// How many tags the hall has.
    fn len(&self) -> u32
        ensures { result ≡ length (tags self.now) };

    /// Whichever way a round ends, what it lists is what different tags sent, and no tag is lost.
    ghost senders: { (before : List TagValue) (spec : SpecValue) → IsLegalSpec spec → ListsItsTags before (played before spec) };

    /// Where it ended after a whole frame of silent slots, and all tags were ready before it, exactly the tags that
    /// its Query speaks to were listed, and the flag of its session is inverted for these alone.
    ghost quiet: { (before : List TagValue) (spec : SpecValue) → IsLegalSpec spec → AreReady before → (played before spec).end ≡ ends.Quiet
        → IsQuietRound before spec (played before spec) };
}
