//! The name of a list line of a report.
ghost use Rattle.std.specs.Prelude.{IfSome, IfNone};
ghost use Rattle.report_lines.specs.Names.{HasName, IsNamed};

use epc_sgtin::{Sgtin, sgtin_laws};
use text_fields::{Fields, four_fields, word};
use wire_text::epc_of;

/// The SGTIN that is listed in a line, which is given without its line feed: the line is
/// `list ROUND SLOT PC EPC`, PC has four upper-case hexadecimal digits, and EPC the 24 of an SGTIN-96. None exactly
/// where the line is no such line.
pub fn listed_sgtin(line: &[u8]) -> Option<Sgtin>
    ensures some { IfSome result (λ sgtin. IsNamed line.now sgtin) }
    ensures none { IfNone result (¬ HasName line.now) }
{
    // By these laws words are those of an SGTIN or are refused, and not both.
    sgtin_laws();
    let mut fields = Fields::new(line);
    let kind = fields.next()?;
    if kind != b"list".as_slice() {
        return None;
    }
    let (_, _, pc, epc) = four_fields(fields)?;
    word(pc)?;
    let words = epc_of(epc)?;
    Sgtin::decode(words.as_slice()).ok()
}
