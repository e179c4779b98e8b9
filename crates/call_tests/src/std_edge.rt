//! Readers and writers of std as a source and a sink, with calls that fail.
use air_io::{Put, Sink, Source, StdSink, StdSource, Take};
use std::io::{self, Cursor, ErrorKind, Read, Write};

/// Fails at its second call, and then goes on.
#[derive(Drop)]
struct FailsOnce<T> {
    inner: T,
    calls: u64,
}

impl<T> FailsOnce<T> {
    fn new(inner: T) -> FailsOnce<T> {
        FailsOnce { inner, calls: 0 }
    }

    /// Counts a call, and says whether it fails.
    fn fails(&mut self) -> bool {
        self.calls = self.calls.saturating_add(1);
        self.calls == 2
    }
}

impl<R: Read> Read for FailsOnce<R> {
    fn read(&mut self, buf: &mut [u8]) -> io::Result<usize> {
        if self.fails() {
            return Err(io::Error::from(ErrorKind::Other));
        }
        self.inner.read(buf)
    }
}

impl<W: Write> Write for FailsOnce<W> {
    fn write(&mut self, buf: &[u8]) -> io::Result<usize> {
        if self.fails() {
            return Err(io::Error::from(ErrorKind::Other));
        }
        self.inner.write(buf)
    }

    fn flush(&mut self) -> io::Result<()> {
        self.inner.flush()
    }
}

/// What the reads of the bytes 1, 2 and 3 answer, and what stands in the two bytes of the buffer then.
const READS: &[(Take, [u8; 2])] = &[
    (Take::Took(2), [1, 2]),
    (Take::Failed, [1, 2]),
    (Take::Took(1), [3, 2]),
    (Take::End, [3, 2]),
];

#[test]
fn a_reader_is_read_on_after_a_failure(rt: HostRuntime) {
    let mut source = StdSource::new(FailsOnce::new(Cursor::new([1u8, 2, 3])));
    let mut buf = [0u8; 2];
    for &(answer, bytes) in READS {
        let taken = source.read(&mut buf);
        assert!(rt; taken == answer && buf == bytes, "{answer:?}");
    }
}

/// What the writes of the bytes 8 and 9 answer, where there is room for three bytes.
const WRITES: &[Put] = &[Put::Took(2), Put::Failed, Put::Took(1), Put::Failed];

#[test]
fn a_writer_is_written_on_after_a_failure(rt: HostRuntime) {
    let mut writer = FailsOnce::new(Cursor::new([0u8; 3]));
    let mut sink = StdSink::new(&mut writer);
    for &answer in WRITES {
        let put = sink.write(&[8, 9]);
        assert!(rt; put == answer, "{answer:?}");
    }
    drop(sink);
    assert_eq!(rt; writer.inner.into_inner(), [8, 9, 8]);
}
