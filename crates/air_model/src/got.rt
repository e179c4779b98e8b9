//! What comes back in an exchange.

/// Of whom the channel gives the interrogator something in reply to a command.
#[derive(Clone, Copy, Debug, PartialEq, Eq)]
pub enum Got {
    /// Of nobody: no level is heard.
    Silence,
    /// The reply of the tag with this number, whole.
    Whole(u32),
    /// The reply of the tag with this number, with one level inverted: that at this place, counted from 0.
    Broken(u32, u32),
    /// Levels that no tag sent.
    Raw,
}
