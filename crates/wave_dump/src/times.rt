//! When the frames and levels of a dump begin, in nanoseconds.
ghost use Rattle.std.specs.Prelude.{◌≡◌};
ghost use Rattle.wave_dump.specs.Waves.{answer_begin, begin_behind_silence, later, level_begin, level_offset, periods, t1, t2, t3, t4};

use command_grammar::Command;
use pie_line::Link;

/// The time that lies so many nanoseconds behind a time of a dump, and at most the latest time that a dump tells.
pub(crate) fn later(time: u64, gap: u64) -> u64
    ensures { result ≡ later time gap }
{
    time.saturating_add(gap)
}

/// How many nanoseconds so many periods of the backscatter link frequency last, rounded down.
fn periods(link: &Link, count: u32) -> u64
    ensures { result ≡ periods link.now count }
{
    let (numerator, denominator) = link.blf();
    u64::from(count) * u64::from(denominator) / u64::from(numerator)
}

/// How far behind the first level of a stream the level with this number begins. It goes by the number alone, and is rounded once.
fn level_offset(link: &Link, number: u32) -> u64
    ensures { result ≡ level_offset link.now number }
{
    let (numerator, denominator) = link.blf();
    u64::from(number) * u64::from(denominator) / (2 * u64::from(numerator))
}

/// T1 (6.3.1.6 Link timing).
fn t1(link: &Link) -> u64
    ensures { result ≡ t1 link.now }
{
    u64::from(link.rtcal()).max(periods(link, 10))
}

/// T2 (6.3.1.6 Link timing), which lies between a reply and the next frame.
pub(crate) fn t2(link: &Link) -> u64
    ensures { result ≡ t2 link.now }
{
    periods(link, 10)
}

/// T3 (6.3.1.6 Link timing), which an interrogator waits behind T1 for a reply.
fn t3(link: &Link) -> u64
    ensures { result ≡ t3 link.now }
{
    periods(link, 3)
}

/// T4 (6.3.1.6 Link timing), which lies between two commands.
pub(crate) fn t4(link: &Link) -> u64
    ensures { result ≡ t4 link.now }
{
    2 * u64::from(link.rtcal())
}

/// When the answer begins behind a frame that ends at a time.
pub(crate) fn answer_begin(link: &Link, end: u64) -> u64
    ensures { result ≡ answer_begin link.now end }
{
    later(end, t1(link))
}

/// When the level with this number begins, of a stream that begins at a time.
pub(crate) fn level_begin(link: &Link, begin: u64, number: u32) -> u64
    ensures { result ≡ level_begin link.now begin number }
{
    later(begin, level_offset(link, number))
}

/// When the next frame begins behind a frame of a command that ends at a time, where no levels came.
pub(crate) fn begin_behind_silence(link: &Link, command: &Command, end: u64) -> u64
    ensures { result ≡ begin_behind_silence link.now command.now end }
{
    let apart = later(end, t4(link));
    match command {
        Command::Select { .. } | Command::Nak => apart,
        _ => later(answer_begin(link, end), t3(link)).max(apart),
    }
}
