//! Names, words and refusals, written without a line feed.
ghost use Rattle.std.specs.Prelude.{◌≡◌, ◌++◌, OnOk};
ghost use Rattle.std.specs.String.{string_bytes};
ghost use Rattle.epc_sgtin.specs.SgtinText.{epc_fault_line, name_line, sgtin_words_line, uri_fault_line};

use crate::encoding::EpcFault;
use crate::fixed_uri::Uri;
use crate::laws::uri_laws;
use crate::tag_uri::UriFault;
use crate::value::Sgtin;
use bit_strings::OutOfMemory;
use text_fields::push_next_words;

/// Writes an SGTIN by its URI at the end of the text: `name URI`. After an error the text may hold a part of it.
pub fn push_name(text: &mut String, sgtin: &Sgtin) -> Result<(), OutOfMemory>
    ensures { OnOk result (string_bytes text.new ≡ string_bytes text.old ++ name_line sgtin.now) }
{
    let mut uri = Uri::new();
    sgtin.write_uri(&mut uri);
    text.push_str("name ")?;
    // By its laws a URI is ASCII.
    uri_laws();
    match str::from_utf8(uri.as_slice()) {
        Ok(uri) => text.push_str(uri),
        Err(_) => unreachable!(),
    }
}

/// Writes an SGTIN by the words of its EPC at the end of the text: `sgtin WORDS`. After an error the text may hold
/// a part of it.
pub fn push_sgtin_words(text: &mut String, words: &[u16]) -> Result<(), OutOfMemory>
    ensures { OnOk result (string_bytes text.new ≡ string_bytes text.old
        ++ sgtin_words_line words.now) }
{
    text.push_str("sgtin")?;
    push_next_words(text, words)
}

/// Writes at the end of the text why words are no SGTIN-96: `refused` and the reason.
pub fn push_epc_fault(text: &mut String, fault: EpcFault) -> Result<(), OutOfMemory>
    ensures { OnOk result (string_bytes text.new ≡ string_bytes text.old ++ epc_fault_line fault) }
{
    match fault {
        EpcFault::Length => text.push_str("refused length"),
        EpcFault::Header => text.push_str("refused header"),
        EpcFault::Partition => text.push_str("refused partition"),
        EpcFault::Company => text.push_str("refused company"),
        EpcFault::Item => text.push_str("refused item"),
    }
}

/// Writes at the end of the text why a text is no URI of an SGTIN-96: `refused` and the reason.
pub fn push_uri_fault(text: &mut String, fault: UriFault) -> Result<(), OutOfMemory>
    ensures { OnOk result (string_bytes text.new ≡ string_bytes text.old ++ uri_fault_line fault) }
{
    match fault {
        UriFault::Prefix => text.push_str("refused prefix"),
        UriFault::Parts => text.push_str("refused parts"),
        UriFault::Filter => text.push_str("refused filter"),
        UriFault::Company => text.push_str("refused company"),
        UriFault::Item => text.push_str("refused item"),
        UriFault::Serial => text.push_str("refused serial"),
    }
}
