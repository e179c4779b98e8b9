//! The edge: std's readers and writers.
ghost use Rattle.std.specs.Prelude.{◌≡◌, ◌<◌, ◌≤◌, length, take, None, OnErr, OnOk, if◌then◌else◌};
ghost use Rattle.std.specs.Io.KnownBytes.{Consumes, Appends, Keeps, IsAtEnd};
ghost use Rattle.air_io.specs.Flow.{FaultsRose, one_more};
ghost use Rattle.air_io.specs.Takes.{IfTook, OnEnd, OnReadFailed, is_failed_read};
ghost use Rattle.air_io.specs.Puts.{IfPut, OnWriteFailed, is_failed_write};

use crate::{Put, Sink, Source, Take, WriteFailed};
use std::io::{Read, Write};

/// A reader of std as a source. It tells no bytes, and counts the reads that failed (profile).
#[derive(Drop)]
pub struct StdSource<R> {
    reader: R,
    faults: u64,
}

impl<R> StdSource<R> {
    ghost use Rattle.air_io.specs.Standard.{std_reader_of, failed_reads};

    /// A source over this reader, of which no read failed yet.
    pub fn new(reader: R) -> StdSource<R>
        ensures reader { std_reader_of result ≡ reader }
        ensures faults { failed_reads result ≡ 0 }
    {
        StdSource { reader, faults: 0 }
    }
}

impl<R: Read> Source for StdSource<R> {
    ghost use Rattle.air_io.specs.Standard.{std_reader_of, failed_reads};

    ghost left = { λ _. None };

    ghost faults = { failed_reads };

    // What std tells of a reader's bytes, where it does, is kept.
    fn read(&mut self, buf: &mut [u8]) -> Take
        requires { 0 < length buf.old }
        ensures took { IfTook result (λ count. (0 < count) × (count ≤ length buf.new)
            × Consumes (R.remaining (std_reader_of self.old)) (R.remaining (std_reader_of self.new))
            (take count buf.new)) }
        ensures end { OnEnd result (IsAtEnd (R.remaining (std_reader_of self.new))) }
        ensures failed { OnReadFailed result
            (FaultsRose (failed_reads self.old) (failed_reads self.new)
            × Keeps (R.remaining (std_reader_of self.old)) (R.remaining (std_reader_of self.new))) }
        ensures count { failed_reads self.old ≤ failed_reads self.new }
        ensures faults { failed_reads self.new
            ≡ (if is_failed_read result then one_more
            (failed_reads self.old) else failed_reads self.old) }
    {
        match self.reader.read(buf) {
            Ok(0) => Take::End,
            Ok(count) => Take::Took(count),
            Err(_) => {
                self.faults = self.faults.saturating_add(1);
                Take::Failed
            }
        }
    }
}

/// A writer of std as a sink. It tells no bytes, and counts the writes that failed or took nothing (profile).
#[derive(Drop)]
pub struct StdSink<W> {
    writer: W,
    faults: u64,
}

impl<W> StdSink<W> {
    ghost use Rattle.air_io.specs.Standard.{writer_of, failed_writes};

    /// A sink over this writer, of which no write failed yet.
    pub fn new(writer: W) -> StdSink<W>
        ensures writer { writer_of result ≡ writer }
        ensures faults { failed_writes result ≡ 0 }
    {
        StdSink { writer, faults: 0 }
    }
}

impl<W: Write> Sink for StdSink<W> {
    ghost use Rattle.air_io.specs.Standard.{writer_of, failed_writes};

    ghost written = { λ _. None };

    ghost faults = { failed_writes };

    // What std tells of a writer's bytes, where it does, is kept.
    fn write(&mut self, piece: &[u8]) -> Put
        requires { 0 < length piece.now }
        ensures took { IfPut result (λ count. (0 < count) × (count ≤ length piece.now)
            × Appends (W.contents (writer_of self.old)) (W.contents (writer_of self.new))
            (take count piece.now)) }
        ensures failed { OnWriteFailed result
            (FaultsRose (failed_writes self.old) (failed_writes self.new)
            × Keeps (W.contents (writer_of self.old)) (W.contents (writer_of self.new))) }
        ensures count { failed_writes self.old ≤ failed_writes self.new }
        ensures faults { failed_writes self.new
            ≡ (if is_failed_write result then one_more
            (failed_writes self.old) else failed_writes self.old) }
    {
        match self.writer.write(piece) {
            Ok(count) if count > 0 => Put::Took(count),
            _ => {
                self.faults = self.faults.saturating_add(1);
                Put::Failed
            }
        }
    }

    fn flush(&mut self) -> Result<(), WriteFailed>
        ensures failed { OnErr result
            (FaultsRose (failed_writes self.old) (failed_writes self.new)) }
        ensures steady { OnOk result (failed_writes self.new ≡ failed_writes self.old) }
    {
        if self.writer.flush().is_err() {
            self.faults = self.faults.saturating_add(1);
            return Err(WriteFailed);
        }
        Ok(())
    }
}
