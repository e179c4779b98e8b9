//! What an exchange shows of a tag.

use crate::verdict::Want;

/// What an exchange shows of a tag.
#[derive(Drop)]
pub(crate) enum Shown {
    /// It can have done this by the tables.
    Explained,
    /// It can have done this by a liberty alone; by the tables it had to answer this.
    Excused(Want),
    /// It can't have done this, and had to answer this.
    Refused(Want),
}
