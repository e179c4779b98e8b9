//! What befalls a tag besides commands.
ghost use Rattle.std.specs.Prelude.{◌≡◌};
ghost use Rattle.tag_machine.specs.Events.{tag_after_event, after_timeout, after_off, after_on, after_expiry};
ghost use Rattle.tag_machine.specs.TagValue.{IsLegalTag};
ghost use Rattle.tag_machine.specs.Hearing.{tag_value_of};

use crate::abilities::Present;
use crate::any_tag::AnyTag;
use crate::states::{Ready, Unpowered};
use crate::tag::Tag;
use crate::transitions::back;
use air_events::Event;
use command_grammar::FlagName;

impl AnyTag {
    /// The time T2 ran out: a tag in reply or acknowledged goes back to arbitrate.
    fn time_out(self) -> AnyTag
        ensures { tag_value_of result
            ≡ after_timeout (tag_value_of self).state (tag_value_of self).body }
    {
        match self {
            AnyTag::InReply(Tag { state, body }) => {
                AnyTag::Arbitrate(back(body, state.session, state.q))
            }
            AnyTag::Acknowledged(Tag { state, body }) => {
                AnyTag::Arbitrate(back(body, state.session, state.q))
            }
            other => other,
        }
    }

    /// Power is lost. A killed tag stays as it is.
    fn lose_power(self) -> AnyTag
        ensures { tag_value_of result
            ≡ after_off (tag_value_of self).state (tag_value_of self).body }
    {
        match self {
            AnyTag::Killed(tag) => AnyTag::Killed(tag),
            AnyTag::Ready(Tag { state: _, body })
            | AnyTag::Arbitrate(Tag { state: _, body })
            | AnyTag::InReply(Tag { state: _, body })
            | AnyTag::Acknowledged(Tag { state: _, body })
            | AnyTag::Opened(Tag { state: _, body })
            | AnyTag::Secured(Tag { state: _, body })
            | AnyTag::Unpowered(Tag { state: _, body }) => {
                let mut body = body;
                body.parts.flags.lose_power();
                let state = Unpowered;
                AnyTag::Unpowered(Tag { state, body })
            }
        }
    }

    /// Power comes. A tag that was without it is ready, with StoredCRC computed again; any other stays as it is.
    fn get_power(self) -> AnyTag
        ensures { tag_value_of result
            ≡ after_on (tag_value_of self).state (tag_value_of self).body }
    {
        match self {
            AnyTag::Unpowered(Tag { state: _, mut body }) => {
                body.parts.memory.power_on();
                AnyTag::Ready(Tag { state: Ready, body })
            }
            other => other,
        }
    }

    /// The persistence of a flag ends, by whether the tag has power and whether it takes part in a round.
    fn expire(self, flag: FlagName) -> AnyTag
        ensures { tag_value_of result
            ≡ after_expiry flag (tag_value_of self).state (tag_value_of self).body }
    {
        match self {
            AnyTag::Ready(Tag { state, body }) => state.tag(body.after_expiry(flag, true, false)),
            AnyTag::Arbitrate(Tag { state, body }) => state.tag(body.after_expiry(
                flag, true, true,
            )),
            AnyTag::InReply(Tag { state, body }) => state.tag(body.after_expiry(flag, true, true)),
            AnyTag::Acknowledged(Tag { state, body }) => state.tag(body.after_expiry(
                flag, true, true,
            )),
            AnyTag::Opened(Tag { state, body }) => state.tag(body.after_expiry(flag, true, true)),
            AnyTag::Secured(Tag { state, body }) => state.tag(body.after_expiry(flag, true, true)),
            AnyTag::Killed(tag) => AnyTag::Killed(tag),
            AnyTag::Unpowered(Tag { state, body }) => {
                let body = body.after_expiry(flag, false, false);
                AnyTag::Unpowered(Tag { state, body })
            }
        }
    }

    /// What an event does to the tag:
    ///
    /// - `Timeout` takes a tag in reply or acknowledged back to arbitrate (6.3.1.6 Link timing, T2).
    /// - `Off` takes power from the tag: the inventoried flag of S0 becomes A.
    /// - `On` gives power to a tag that has none: it is ready, and StoredCRC is computed again (6.3.2.1.2.1).
    /// - `Expire` ends the persistence of a flag (6.3.2.2 Sessions and inventoried flags, the table of
    ///   persistence).
    ///
    /// A killed tag stays as it is, and an event changes nothing besides.
    pub fn event(self, event: Event) -> AnyTag
        ensures step { tag_value_of result
            ≡ tag_after_event event (tag_value_of self).state (tag_value_of self).body }
        ensures legal { IsLegalTag (tag_value_of result) }
    {
        match event {
            Event::Timeout => self.time_out(),
            Event::Off => self.lose_power(),
            Event::On => self.get_power(),
            Event::Expire(flag) => self.expire(flag),
        }
    }
}
