//! Which members a line has, by its words.
ghost use Rattle.std.specs.Prelude.{◌≡◌, map};
ghost use Rattle.line_objects.specs.LineMembers.{keys_behind, keys_in, line_keys, row_of};

use crate::member_names::Key;

/// Which lines: those that one word of the command line writes.
#[derive(Clone, Copy)]
pub enum LineSet {
    /// The answers to decode lines.
    Decode,
    /// What a tag at the bench answers and is.
    Probe,
    /// Whether a trace is audited.
    Audit,
    /// What is judged of a log.
    Judge,
    /// A report that says who said what in each exchange.
    Exchanges,
}

/// A row of a table of lines: a word, and the members that stand behind it.
#[derive(Clone, Copy)]
struct Row(&'static [u8], &'static [Key]);

/// The table of the replies of a tag: the word of each, and the members behind it.
const REPLY_ROWS: &[Row] = &[
    Row(b"rn16", &[Key::Rn16]),
    Row(b"epc", &[Key::Pc, Key::Epc]),
    Row(b"handle", &[Key::Handle]),
    Row(b"words", &[Key::Words]),
    Row(b"header", &[]),
    Row(b"error", &[Key::Error]),
];

/// The table of the commands (6.3.2.11): the word of each, and the members behind it.
const COMMAND_ROWS: &[Row] = &[
    Row(b"queryrep", &[Key::Session]),
    Row(b"ack", &[Key::Rn]),
    Row(
        b"query",
        &[
            Key::Dr,
            Key::Code,
            Key::TrExt,
            Key::Sel,
            Key::Session,
            Key::Target,
            Key::Q,
        ],
    ),
    Row(b"queryadjust", &[Key::Session, Key::UpDn]),
    Row(
        b"select",
        &[Key::Target, Key::Action, Key::Bank, Key::Pointer, Key::Mask],
    ),
    Row(b"nak", &[]),
    Row(b"req_rn", &[Key::Rn]),
    Row(b"read", &[Key::Bank, Key::Ptr, Key::Count, Key::Rn]),
    Row(b"write", &[Key::Bank, Key::Ptr, Key::Covered, Key::Rn]),
    Row(b"kill", &[Key::Covered, Key::Rn]),
    Row(b"lock", &[Key::Payload, Key::Rn]),
    Row(b"access", &[Key::Covered, Key::Rn]),
    Row(b"blockwrite", &[Key::Bank, Key::Ptr, Key::Words, Key::Rn]),
    Row(b"blockerase", &[Key::Bank, Key::Ptr, Key::Count, Key::Rn]),
];

/// The members of the state of a tag that has a handle.
const HANDLE_KEYS: &[Key] = &[
    Key::Flags,
    Key::Session,
    Key::Q,
    Key::Handle,
    Key::Cover,
    Key::Half,
];

/// The table of the states of a tag (6.3.2.4): the word of each, and the flags and the numbers behind it.
const STATE_ROWS: &[Row] = &[
    Row(b"ready", &[Key::Flags]),
    Row(b"arbitrate", &[Key::Flags, Key::Session, Key::Q, Key::Slot]),
    Row(b"reply", &[Key::Flags, Key::Session, Key::Q, Key::Rn]),
    Row(
        b"acknowledged",
        &[Key::Flags, Key::Session, Key::Q, Key::Rn],
    ),
    Row(b"open", HANDLE_KEYS),
    Row(b"secured", HANDLE_KEYS),
    Row(b"killed", &[Key::Flags]),
    Row(b"off", &[Key::Flags]),
];

/// The table of what a channel gives of the replies in an exchange: its word, and the members behind it.
const GIVEN_ROWS: &[Row] = &[
    Row(b"silence", &[]),
    Row(b"whole", &[Key::Tag]),
    Row(b"broken", &[Key::Tag, Key::Place]),
    Row(b"raw", &[]),
];

/// The table of the lines that answer decode lines, but for those of replies and of commands.
const ANSWER_ROWS: &[Row] = &[
    Row(b"bits", &[Key::Bits]),
    Row(b"invalid", &[Key::Place]),
    Row(b"unfinished", &[Key::Place]),
    Row(b"levels", &[Key::Levels]),
    Row(b"mixed", &[Key::Place]),
    Row(b"rest", &[Key::Place]),
    Row(b"sync", &[Key::Tari, Key::RtCal, Key::Bits]),
    Row(b"preamble", &[Key::Tari, Key::RtCal, Key::TrCal, Key::Bits]),
    Row(b"refused", &[Key::Refused]),
    Row(b"short", &[Key::Count]),
    Row(b"name", &[Key::Uri]),
    Row(b"sgtin", &[Key::EpcWords]),
];

/// The members of a tag.
const TAG_KEYS: &[Key] = &[
    Key::TagNumber,
    Key::State,
    Key::Flags,
    Key::Locks,
    Key::Reserved,
    Key::EpcBank,
    Key::Tid,
    Key::User,
];

/// The table of the lines that `probe` writes of a tag at the bench.
const PROBE_ROWS: &[Row] = &[
    Row(b"answer", &[Key::Line, Key::Preamble, Key::Reply]),
    Row(b"state", &[Key::Line, Key::StateOf]),
    Row(b"tag", TAG_KEYS),
    Row(b"done", &[]),
];

/// The table of the lines that `audit` writes: whether a trace is audited.
const AUDIT_ROWS: &[Row] = &[Row(b"yes", &[]), Row(b"no", &[Key::Line, Key::Reason])];

/// The table of the lines that `judge` writes: what is judged of the log of one tag.
const JUDGE_ROWS: &[Row] = &[
    Row(b"yes", &[]),
    Row(b"profile", &[Key::Line, Key::Wanted, Key::Reply]),
    Row(b"no", &[Key::Line, Key::Wanted, Key::Reply]),
];

/// The table of what may stand in a line of `judge` behind the hyphen that says that nothing had to be answered.
const WANT_ROWS: &[Row] = &[Row(b"-", &[Key::Or, Key::OrPreamble, Key::Reply])];

/// The table of the lines of a report that says who said what in each exchange.
const REPORT_ROWS: &[Row] = &[
    Row(b"exchange", &[Key::Exchange, Key::Command]),
    Row(b"missed", &[Key::Exchange, Key::Tag]),
    Row(
        b"answer",
        &[Key::Exchange, Key::Tag, Key::Preamble, Key::Reply],
    ),
    Row(b"given", &[Key::Exchange, Key::Given]),
    Row(b"list", &[Key::Round, Key::Slot, Key::Pc, Key::Epc]),
    Row(
        b"op",
        &[Key::Round, Key::Slot, Key::Index, Key::Result, Key::Value],
    ),
    Row(b"round", &[Key::Round, Key::End, Key::Slots]),
    Row(b"seen", &[Key::Count, Key::Pc, Key::Epc]),
    Row(b"tag", TAG_KEYS),
    Row(b"done", &[]),
];

/// The members behind a word, by a table, and where that has no such word, these others.
fn keys_in(rows: &[Row], word: &[u8], others: &'static [Key]) -> &'static [Key]
    ensures { result.now ≡ keys_in (map row_of rows.now) word.now others.now }
{
    match rows {
        [] => others,
        [row, behind @ ..] => {
            if word == row.0 {
                row.1
            } else {
                keys_in(behind, word, others)
            }
        }
    }
}

/// The members of a line's object behind its first field, by the word in that field and the set that the line is of.
pub fn line_keys(set: LineSet, word: &[u8]) -> &'static [Key]
    ensures { result.now ≡ line_keys set word.now }
{
    match set {
        LineSet::Decode => {
            let commands = keys_in(COMMAND_ROWS, word, &[]);
            keys_in(ANSWER_ROWS, word, keys_in(REPLY_ROWS, word, commands))
        }
        LineSet::Probe => keys_in(PROBE_ROWS, word, &[]),
        LineSet::Audit => keys_in(AUDIT_ROWS, word, &[]),
        LineSet::Judge => keys_in(JUDGE_ROWS, word, &[]),
        LineSet::Exchanges => keys_in(REPORT_ROWS, word, &[]),
    }
}

/// The members behind a field.
pub fn keys_behind(key: Key, word: &[u8], others: &'static [Key]) -> &'static [Key]
    ensures { result.now ≡ keys_behind key word.now others.now }
{
    match key {
        Key::Command => keys_in(COMMAND_ROWS, word, &[]),
        Key::Reply => keys_in(REPLY_ROWS, word, &[]),
        Key::StateOf => keys_in(STATE_ROWS, word, &[]),
        Key::Given => keys_in(GIVEN_ROWS, word, &[]),
        Key::Wanted => keys_in(WANT_ROWS, word, others),
        Key::Refused => &[Key::Refused],
        _ => others,
    }
}
