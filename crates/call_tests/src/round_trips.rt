//! Scenarios, written: each text has one scenario, whose one text it is.
ghost use Rattle.std.specs.Prelude.{IfOk};
ghost use Rattle.scenario.specs.Limits.{IsScenario};

use scenario::{Scenario, Unread, print_and_read, print_scenario, read_and_print, read_scenario};
use std::alloc::Global;

/// One tag, and a round of one slot.
const ONE_TAG: &[u8] = b"gen2 1
link 12500 31250 50000 6250 1 fm0 0
tag 00000000 00000000 0000000000 08001234 E2000001 - A1B2
round all 0 a 0 300 5
end
";

/// Each kind of line.
const EACH_LINE: &[u8] = b"gen2 1
link 6250 18750 56250 2000 0 m8 1
tag AABBCCDD 12345678 1001001101 0000 E2000000FFFF 000AB000 00001111
tag 00000000 00000000 0000000000 08005678 E2000002 - A1B2
air 1 timeout 0
air 1 off 1
air 1 miss 1
air 1 miss 0
air 1 pick 4095
air 2 on 1
air 2 expire sl 0
air 2 silent
air 3 raw 1101001000110010110101010100110100110101001011
air 4 timeout 1
air 4 miss 0
air 4 raw 0
air 1000000 break 999999
select sl 7 user 268435455 10010
select s0 0 epc 0 -
nak
event expire s3 1
round nsl 3 b 15 100 70000
op read epc 2 0
op write res 268435455 A5C3
op blockwrite user 7 00010002FFFF
op blockerase tid 0 255
op lock 0C030
op access 0123ABCD
op kill FFFF0000
event off 0
round sl 1 a 6 500 1
only 3074257BF7194E4000001A85
round sl 1 b 6 500 1
only -
op lock FFFFF
op lock 00000
end
";

/// Each kind of line that version 2 adds, or spells in its own way, and as many tags as it may have.
const VERSION_2: &[u8] = b"gen2 2
link 12500 31250 50000 6250 1 m4 0
default capture
tag 00000000 00000000 0000000000 08001234 E2000001 - A1B2
copies 2 AABBCCDD 12345678 1001001101 0800FFFF E2000000FFFF 000AB000 0000FFFF
copies 4093 00000000 00000000 0000000000 30003074257BF7194E4000000000 E2000000 - 0000
air 1 off 4095
round all 0 a 12 fixed 10000
round nsl 3 b 15 float-100 70000
only 3074257BF7194E4000001A85
op read epc 2 0
round sl 1 a 6 float-500 1
round all 2 b 0 frame 20
end
";

/// The scenario that is read from what is written of the one that is read from a text.
fn read_twice(alloc: Global, text: &[u8]) -> Result<Scenario, Unread>
    ensures { IfOk result IsScenario }
{
    let scenario = read_scenario(alloc, text)?;
    print_and_read(alloc, &scenario)
}

/// Whether a text is what is written of that, and what is written where it is read once.
fn comes_back(alloc: Global, text: &[u8]) -> Result<bool, Unread> {
    let once = read_and_print(alloc, text)?;
    let scenario = read_twice(alloc, text)?;
    let twice = print_scenario(alloc, &scenario)?;
    Ok(once.as_slice() == text && twice.as_slice() == text)
}

/// Scenarios whose text is written as it was read.
const TEXTS: &[&[u8]] = &[ONE_TAG, EACH_LINE, VERSION_2];

#[test]
fn texts_come_back(rt: HostRuntime) {
    for &text in TEXTS {
        assert!(rt; matches!(comes_back(rt.alloc(), text), Ok(true)));
    }
}
