//! Rounds, against answers written out by hand.

use q_round::{
    Code, Command, Link, Next, Outcome, QValue, Round, RoundEnd, RoundSpec, Rule, Sel, Session,
    Side, UpDn,
};

/// The outcomes of slots, by their first letters.
fn outcome_of(letter: u8) -> Option<Outcome> {
    match letter {
        b'S' => Some(Outcome::Silence),
        b'W' => Some(Outcome::Whole),
        b'R' => Some(Outcome::Refused),
        _ => None,
    }
}

/// What follows a slot: `r` is a QueryRep, `+`, `=` and `-` are QueryAdjusts up, same and down, `Q` and
/// `L` are the ends.
fn next_of(letter: u8, session: Session) -> Option<Next> {
    let updn = match letter {
        b'r' => return Some(Next::Send(Command::QueryRep { session })),
        b'Q' => return Some(Next::Quiet),
        b'L' => return Some(Next::Limit),
        b'+' => UpDn::Up,
        b'=' => UpDn::Same,
        b'-' => UpDn::Down,
        _ => return None,
    };
    Some(Next::Send(Command::QueryAdjust { session, updn }))
}

/// What follows a slot with this outcome.
fn answer_to(round: &mut Round, outcome: Outcome) -> Next {
    let mut command = Command::Nak;
    match round.next(outcome, &mut command) {
        None => Next::Send(command),
        Some(RoundEnd::Quiet) => Next::Quiet,
        Some(RoundEnd::Limit) => Next::Limit,
    }
}

/// Q, the rule for it, the limit, the outcomes, what follows each, and the number of slot commands in the end.
type RoundRow = (u8, Rule, u32, &'static [u8], &'static [u8], u32);

/// Rounds, of each rule for Q.
const ROUNDS: &[RoundRow] = &[
    // Qfp 1300, 1000, 1000, 1000, 700, 400: two frames of two slots with a reply in each, and a silent one.
    (1, Rule::Float(300), 20, b"RSWWSS", b"r=r=rQ", 6),
    // At Q 0 the first silence ends the round, and it stays ended.
    (0, Rule::Float(500), 70000, b"SSRW", b"QQQQ", 1),
    // Qfp 100, 200, 300, 400, 500, 600, 700: five collisions of step 100 raise Q from 0 to 1.
    (0, Rule::Float(100), 9, b"RRRRRRR", b"====+r=", 8),
    // Qfp 500, 1000, 1500, 2000, 2500: each half rounds up.
    (0, Rule::Float(500), 9, b"RRRRR", b"+r+r+", 6),
    // Qfp 2500, 2000, 1500, 1000, 500, 0: silence lowers Q from 3 to 1, whose second frame is silent.
    (3, Rule::Float(500), 9, b"SSSSSS", b"r-r-rQ", 6),
    // Qfp 2000, 1900, 1800, 1700, 1600, 1500, 1400, 1300, 1200: a frame with one reply isn't silent.
    (2, Rule::Float(100), 70000, b"WSSSSSSSS", b"rrr=rr-rQ", 9),
    // Qfp 14500, 15000, 15000, 15000, 15000: Q rises to 15, and no further.
    (14, Rule::Float(500), 6, b"RRRRRRS", b"+rrrrLL", 6),
    // Qfp 15000, 15000, 14500, 14000: no collision at the top counts later.
    (15, Rule::Float(500), 9, b"RRSS", b"rrr-", 5),
    // The limit ends the round, and it stays ended.
    (4, Rule::Float(300), 1, b"WSR", b"LLL", 1),
    // Where both ends are reached at one slot, the round ends quiet.
    (0, Rule::Float(300), 1, b"S", b"Q", 1),
    (1, Rule::Float(300), 2, b"SSW", b"rQQ", 2),
    (1, Rule::Float(300), 2, b"WS", b"rL", 2),
    // Q stays, whatever comes: a whole frame begins again.
    (1, Rule::Fixed, 20, b"RSWWSS", b"r=r=rQ", 6),
    (0, Rule::Fixed, 4, b"RRRR", b"===L", 4),
    (2, Rule::Fixed, 70000, b"RRRRSSSSS", b"rrr=rrrQQ", 8),
    // One collision in two slots leaves Q, and none lowers it.
    (1, Rule::Frame, 20, b"RSWWS", b"r=r-Q", 5),
    // In four slots two collisions and one leave Q, none lowers it. At Q 0 it goes no lower.
    (
        2,
        Rule::Frame,
        20,
        b"RRSWRSWWSSSWWSWS",
        b"rrr=rrr=rrr-r-=Q",
        16,
    ),
    // Collisions in more than half of the slots raise it: in 1 of 1, in 2 of 2, in 3 of 4.
    (0, Rule::Frame, 20, b"RRRRSRR", b"+r+rrr+", 8),
    // The ends come before the rule.
    (0, Rule::Frame, 1, b"R", b"L", 1),
    (2, Rule::Frame, 4, b"SSSS", b"rrrQ", 4),
];

/// The Query of a round with this Q.
fn query(session: Session, q: QValue) -> Command {
    Command::Query {
        dr: true,
        code: Code::M4,
        trext: false,
        sel: Sel::Sl,
        session,
        target: Side::A,
        q,
    }
}

/// A round with this Q, this rule for it and this limit, if its first command is its Query.
fn begun(q: u8, rule: Rule, limit: u32) -> Option<Round> {
    let session = Session::new(1)?;
    let link = Link::new(12500, 31250, 50000, 6250, true, Code::M4, false).ok()?;
    let q = QValue::new(q)?;
    let spec = RoundSpec::new(Sel::Sl, session, Side::A, q, rule, limit)?;
    let (round, start) = Round::start(&spec, &link);
    if start == query(session, q) {
        Some(round)
    } else {
        None
    }
}

/// Whether a round goes as the row says.
fn goes(row: &RoundRow) -> Option<bool> {
    let (q, rule, limit, outcomes, answers, slots) = *row;
    let session = Session::new(1)?;
    let mut round = begun(q, rule, limit)?;
    for (outcome, answer) in outcomes.iter().zip(answers) {
        if answer_to(&mut round, outcome_of(*outcome)?) != next_of(*answer, session)? {
            return Some(false);
        }
    }
    Some(outcomes.len() == answers.len() && round.slots_sent() == slots)
}

#[test]
fn rounds_by_the_table(rt: HostRuntime) {
    for row in ROUNDS {
        assert!(rt; goes(row) == Some(true), "{row:?}");
    }
}
