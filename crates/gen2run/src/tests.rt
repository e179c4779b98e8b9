//! The program from its words and input to its status and output, over memory whose calls fail. What it writes where none fails
//! stands as rows in rows/.

use air_io::{MemSink, MemSource, SureSink, SureSource};
use std::alloc::Global;
use top_call::{Status, gen2run, gen2run_surely};

/// Room for the defined text of every row.
const ROOM: u32 = 60_000;

/// Row `fm0-bit-one`: a line that asks for its bits.
const STREAM: &str = "fm0 0 1101001000110011\n";

/// Row `one-tag`: one tag that one round lists.
const ONE_TAG: &str = "gen2 1\nlink 12500 31250 50000 6250 1 fm0 0\n\
    tag 00000000 00000000 0000000000 08001234 E2000001 - A1B2\n\
    round all 0 a 0 300 5\nend\n";

/// The lines of its report.
const ONE_TAG_LINES: &[&str] = &[
    "list 1 1 0800 1234\n",
    "round 1 quiet 2\n",
    "seen 1 0800 1234\n",
    "tag 0 ready BAAA0 0000000000 0000000000000000 ED3A08001234 E2000001 -\n",
    "done\n",
];

/// Row `collision`: two tags that reply at once in one slot of six.
const COLLISION: &str = "gen2 1\nlink 12500 31250 50000 6250 1 fm0 0\n\
    tag 00000000 00000000 0000000000 08001234 E2000001 - 0000111100022222\n\
    tag 00000000 00000000 0000000000 08005678 E2000002 - 0000333300014444\n\
    round all 0 a 1 300 20\nend\n";

/// The lines of its report.
const COLLISION_LINES: &[&str] = &[
    "list 1 3 0800 1234\n",
    "list 1 4 0800 5678\n",
    "round 1 quiet 6\n",
    "seen 1 0800 1234\n",
    "seen 1 0800 5678\n",
    "tag 0 ready BAAA0 0000000000 0000000000000000 ED3A08001234 E2000001 -\n",
    "tag 1 ready BAAA0 0000000000 0000000000000000 A57A08005678 E2000002 -\n",
    "done\n",
];

/// A word, an input and the lines of its answer; the number of a read and of a write that fail, 0 for none; the status, and how many
/// of the lines are written.
type Row = (
    &'static str,
    &'static str,
    &'static [&'static str],
    (u64, u64),
    Status,
    usize,
);

/// Rows `failing-devices` and `write-pieces`. A report has a write for each line.
const ROWS: &[Row] = &[
    ("decode", STREAM, &["bits 1\n"], (0, 0), Status::Done, 1),
    ("decode", STREAM, &[], (1, 0), Status::ReadFault, 0),
    ("decode", STREAM, &[], (0, 1), Status::WriteFault, 0),
    ("run", ONE_TAG, ONE_TAG_LINES, (0, 0), Status::Done, 5),
    ("run", ONE_TAG, &[], (1, 0), Status::ReadFault, 0),
    ("run", ONE_TAG, &[], (0, 1), Status::WriteFault, 0),
    ("run", ONE_TAG, ONE_TAG_LINES, (0, 3), Status::WriteFault, 2),
    ("run", COLLISION, &[], (1, 0), Status::ReadFault, 0),
    ("run", COLLISION, &[], (0, 1), Status::WriteFault, 0),
    (
        "run",
        COLLISION,
        COLLISION_LINES,
        (0, 2),
        Status::WriteFault,
        1,
    ),
    (
        "run",
        COLLISION,
        COLLISION_LINES,
        (0, 3),
        Status::WriteFault,
        2,
    ),
    (
        "run",
        COLLISION,
        COLLISION_LINES,
        (0, 4),
        Status::WriteFault,
        3,
    ),
    (
        "run",
        COLLISION,
        COLLISION_LINES,
        (0, 5),
        Status::WriteFault,
        4,
    ),
    (
        "run",
        COLLISION,
        COLLISION_LINES,
        (0, 6),
        Status::WriteFault,
        5,
    ),
    (
        "run",
        COLLISION,
        COLLISION_LINES,
        (0, 7),
        Status::WriteFault,
        6,
    ),
    (
        "run",
        COLLISION,
        COLLISION_LINES,
        (0, 8),
        Status::WriteFault,
        7,
    ),
    ("run", COLLISION, COLLISION_LINES, (0, 9), Status::Done, 8),
];

/// Whether a text is the first so many of these lines.
fn are_first(lines: &[&str], count: usize, text: &[u8]) -> bool {
    let mut rest = text;
    for line in lines.iter().take(count) {
        match rest.strip_prefix(line.as_bytes()) {
            Some(behind) => rest = behind,
            None => return false,
        }
    }
    rest.is_empty()
}

/// The status of the program where a read and a write fail, and the sink with what it wrote; none without memory. Where no read
/// is to fail, the source is one that can't.
fn ran(alloc: Global, word: &str, input: &str, failing: (u64, u64)) -> Option<(Status, MemSink)> {
    let words = vec![in alloc; String::from_str(alloc, word).ok()?].ok()?;
    let bytes = input.as_bytes().to_vec(alloc).ok()?;
    let mut sink = MemSink::new(alloc, ROOM, [failing.1].to_vec(alloc).ok()?).ok()?;
    let status = if failing.0 == 0 {
        gen2run(alloc, &words, &mut SureSource::new(bytes), &mut sink)
    } else {
        let mut source = MemSource::new(bytes, [failing.0].to_vec(alloc).ok()?);
        gen2run(alloc, &words, &mut source, &mut sink)
    };
    Some((status, sink))
}

/// Whether the program does what the row says.
fn does(alloc: Global, row: &Row) -> bool {
    let (word, input, lines, failing, wanted, count) = *row;
    match ran(alloc, word, input, failing) {
        Some((status, sink)) => status == wanted && are_first(lines, count, sink.as_slice()),
        None => false,
    }
}

#[test]
fn failing_devices(rt: HostRuntime) {
    for row in ROWS {
        assert!(rt; does(rt.alloc(), row), "{row:?}");
    }
}

/// How the run of one tag ends where neither the source nor the sink can fail; none without memory.
fn ends_surely(alloc: Global) -> Option<Status> {
    let words = vec![in alloc; String::from_str(alloc, "run").ok()?].ok()?;
    let mut source = SureSource::new(ONE_TAG.as_bytes().to_vec(alloc).ok()?);
    Some(gen2run_surely(alloc, &words, &mut source, &mut SureSink::new()))
}

#[test]
fn neither_device_fails(rt: HostRuntime) {
    assert!(rt; ends_surely(rt.alloc()) == Some(Status::Done));
}
