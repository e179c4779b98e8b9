//! What is received of the stream that came last over an air.
ghost use Rattle.std.specs.Prelude.{◌≡◌, ◌≤◌, ◌||◌};
ghost use Rattle.air_events.specs.Streams.{longest_stream};
ghost use Rattle.reply_wire.specs.Codes.{table_of};
ghost use Rattle.reply_wire.specs.Received.{IsReceived};

use air_channel::Air;
use bit_strings::Bits;
use reply_grammar::{EpcWords, Expect, Received};
use reply_wire::receive;

/// Gives what is received of the stream, with the extended preamble or by the TRext of the link, in place of what was received
/// before.
pub(crate) fn receive_last(
    air: &Air,
    expect: &Expect,
    extended: bool,
    bits: &mut Bits,
    received: &mut Received,
)
    requires room { longest_stream ≤ bits.old.capacity }
    ensures room { bits.new.capacity ≡ bits.old.capacity }
    ensures received { IsReceived (table_of air.now.link.code)
        (extended || air.now.link.trext) expect.now air.now.stream received.new }
{
    let link = air.link();
    receive(
        air.stream(),
        link.code(),
        extended || link.trext(),
        expect,
        bits,
        received,
    );
}

/// A copy of the words of an EPC that a tag sent.
pub(crate) fn copy_of(epc: &EpcWords) -> EpcWords
    ensures { result ≡ epc.now }
{
    let mut copy = EpcWords::new();
    for word in epc.as_slice() {
        copy.push_reserved(*word);
    }
    copy
}
