//! What changes a tag's flags besides a Select.
ghost use Rattle.std.specs.Prelude.{◌≡◌};
ghost use Rattle.tag_body.specs.BodyFlags.{body_after_close, body_after_expiry};

use super::Body;
use bit_strings::Session;
use command_fields::FlagName;

impl Body {
    /// The body of a tag that was inventoried in its own session, and hears a Query of a session: where the
    /// two are one, its flag is inverted.
    pub fn after_close(self, own: Session, session: Session) -> Body
        ensures { result ≡ body_after_close own session self }
    {
        if own != session {
            return self;
        }
        let mut body = self;
        body.parts.flags.invert(session);
        body
    }

    /// The body after the persistence of a flag ended, by whether the tag has power and whether it takes part in a round.
    pub fn after_expiry(self, flag: FlagName, powered: bool, takes_part: bool) -> Body
        ensures { result ≡ body_after_expiry flag powered takes_part self }
    {
        let mut body = self;
        body.parts.flags.expire(flag, powered, takes_part);
        body
    }
}
