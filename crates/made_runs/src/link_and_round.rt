//! The link and the round of a made scenario.
ghost use Rattle.std.specs.Prelude.{◌≡◌};
ghost use Rattle.made_runs.specs.Made.{made_link, made_round};

use bit_strings::{Code, QValue, Session};
use command_grammar::{Sel, Side};
use pie_line::Link;
use q_round::{RoundSpec, Rule};

/// The link: its durations in nanoseconds, DR 64/3, Miller with M of 4, and no pilot tone.
pub fn made_link() -> Link
    ensures { result ≡ made_link }
{
    match Link::new(12_500, 31_250, 50_000, 6_250, true, Code::M4, false) {
        Ok(link) => link,
        // Each duration is in its range.
        Err(_) => unreachable!(),
    }
}

/// The round: all tags whose inventoried flag of S0 is A take part, Q is 6 at first, a slot moves Qfp by
/// 300 thousandths (Annex D), and after 10,000 slots the round ends at the latest.
#[tactic(auto, unfolding(crate::specs::Made::made_round))]
pub fn made_round() -> RoundSpec
    ensures { result ≡ made_round }
{
    let (Some(session), Some(q)) = (Session::new(0), QValue::new(6)) else {
        unreachable!()
    };
    match RoundSpec::new(Sel::All00, session, Side::A, q, Rule::Float(300), 10_000) {
        Some(round) => round,
        // Both numbers are in their ranges.
        None => unreachable!(),
    }
}
