//! The words of an EPC that an SGTIN has (GS1 Tag Data Standard, SGTIN-96).
//!
//! The 96 bits are handled as two halves of 48. The front half has the header in 8 bits, the filter and the
//! partition in 3 each, and the first 34 bits of the company and the item, which have 44 together. The back half
//! has their last 10 bits, and the serial in 38.
ghost use Rattle.std.specs.Prelude.{◌≡◌, Result, IfOk, IfErr};

use crate::halves::{half_of, words_of};
use crate::partitions::{ITEM_AND_COMPANY_BITS, ITEM_AND_COMPANY_DIGITS, company_bits, ten_to};
use crate::value::Sgtin;
use thiserror::Error;

/// The header of an SGTIN-96.
const HEADER: u64 = 0x30;

/// Why words are no SGTIN-96: the first of these that applies.
#[derive(Clone, Copy, Debug, PartialEq, Eq, Error)]
pub enum EpcFault {
    /// There are not six words.
    #[error("there are not six words")]
    Length,
    /// The header is not 30h.
    #[error("the header is not 30h")]
    Header,
    /// The partition is 7, which the partition table does not have.
    #[error("the partition is 7")]
    Partition,
    /// The company has more digits than its partition says.
    #[error("the company has more digits than its partition says")]
    Company,
    /// The item has more digits than its partition says.
    #[error("the item has more digits than its partition says")]
    Item,
}

impl Sgtin {
    ghost use Rattle.epc_sgtin.specs.Epc.{IsSgtin};
    ghost use Rattle.epc_sgtin.specs.EpcFaults.{RefusesEpc, IsSgtinAnswer};
    ghost use Rattle.epc_sgtin.specs.SgtinValue.{SgtinValue};
    ghost use Rattle.epc_sgtin.specs.declared.encoding.EpcFault.{EpcFault};

    /// The words of the EPC.
    pub fn encode(&self) -> [u16; 6]
        ensures { IsSgtin self.now result }
    {
        let partition = 12 - self.digits;
        let item_bits = ITEM_AND_COMPANY_BITS - company_bits(partition);
        let item_and_company = (self.company << item_bits) + u64::from(self.item);
        let front = (HEADER << 6) + (u64::from(self.filter) << 3) + u64::from(partition);
        let (first, second, third) = words_of((front << 34) + (item_and_company >> 10));
        let (fourth, fifth, sixth) = words_of(((item_and_company & 0x3FF) << 38) + self.serial);
        [first, second, third, fourth, fifth, sixth]
    }

    /// The SGTIN whose EPC has these words, or the first reason for which they are that of none.
    pub fn decode(words: &[u16]) -> Result<Sgtin, EpcFault>
        ensures ok { IfOk result (λ sgtin. IsSgtin sgtin words.now) }
        ensures refused { IfErr result (λ fault. RefusesEpc fault words.now) }
        // What the words are is answered.
        ensures only { (answer : Result SgtinValue EpcFault) → IsSgtinAnswer answer words.now
            → result ≡ answer }
    {
        let [first, second, third, fourth, fifth, sixth] = words else {
            return Err(EpcFault::Length);
        };
        let front = half_of(*first, *second, *third);
        let back = half_of(*fourth, *fifth, *sixth);
        if front >> 40 != HEADER {
            return Err(EpcFault::Header);
        }
        let filter = (front >> 37 & 7) as u8;
        let partition = (front >> 34 & 7) as u8;
        if partition == 7 {
            return Err(EpcFault::Partition);
        }
        let item_bits = ITEM_AND_COMPANY_BITS - company_bits(partition);
        let item_and_company = ((front & 0x3_FFFF_FFFF) << 10) + (back >> 38);
        let digits = 12 - partition;
        let company = item_and_company >> item_bits;
        if company >= ten_to(digits) {
            return Err(EpcFault::Company);
        }
        let item = item_and_company & ((1 << item_bits) - 1);
        if item >= ten_to(ITEM_AND_COMPANY_DIGITS - digits) {
            return Err(EpcFault::Item);
        }
        Ok(Sgtin {
            filter,
            digits,
            company,
            item: item as u32,
            serial: back & 0x3F_FFFF_FFFF,
        })
    }
}
