//! A serialised trade item number, by its parts.
ghost use Rattle.std.specs.Prelude.{◌≡◌, IfOk, IfErr};

use crate::partitions::{ITEM_AND_COMPANY_DIGITS, ten_to};
use std::marker::Model;
use thiserror::Error;

/// A serialised trade item number, always with its parts in the ranges of an SGTIN-96 (GS1 Tag Data Standard).
///
/// A contract sees it as a record of its parts.
#[derive(Clone, Copy, Debug, PartialEq, Eq)]
pub struct Sgtin {
    pub(crate) filter: u8,
    pub(crate) digits: u8,
    pub(crate) company: u64,
    pub(crate) item: u32,
    pub(crate) serial: u64,
}

/// Which part of an SGTIN is the first that is out of its range.
#[derive(Clone, Copy, Debug, PartialEq, Eq, Error)]
pub enum SgtinRefusal {
    /// The filter value is above 7.
    #[error("the filter value is above 7")]
    Filter,
    /// The number of the company's digits isn't from 6 to 12.
    #[error("the number of the company's digits is not from 6 to 12")]
    Digits,
    /// The company has more digits than these.
    #[error("the company has more digits than these")]
    Company,
    /// The item has more digits than the company leaves of 13.
    #[error("the item has more digits than the company leaves of 13")]
    Item,
    /// The serial number is not below 274,877,906,944, which is two to the power of 38.
    #[error("the serial number is not below 274877906944")]
    Serial,
}

impl Model for Sgtin {
    ghost use Rattle.epc_sgtin.specs.SgtinValue.{SgtinValue, IsLegalSgtin};

    ghost Value = { SgtinValue };

    ghost view = { λ a. record { filter = a.filter; digits = a.digits; company = a.company; item = a.item; serial = a.serial } };

    ghost invariant = { λ a. IsLegalSgtin
        (record { filter = a.filter; digits = a.digits; company = a.company; item = a.item; serial = a.serial }) };

    ghost inverse = { λ v. record { filter = v.filter; digits = v.digits; company = v.company; item = v.item; serial = v.serial } };
}

/// How many serial numbers there are: two to the power of the 38 bits.
pub(crate) const SERIALS: u64 = 274_877_906_944;

impl Sgtin {
    ghost use Rattle.epc_sgtin.specs.SgtinValue.{SgtinValue, IsLegalSgtin, IsFirstWrong};

    /// The SGTIN with these parts: the filter value, the number of the company's digits, the GS1 company prefix,
    /// the item reference with its indicator in front, and the serial number. It is refused by the first part
    /// that is out of its range, in this order.
    pub fn new(
        filter: u8,
        digits: u8,
        company: u64,
        item: u32,
        serial: u64,
    ) -> Result<Sgtin, SgtinRefusal>
        ensures sgtin { IfOk result
            (λ sgtin. sgtin
            ≡ record {
              filter = filter;
              digits = digits;
              company = company;
              item = item;
              serial = serial;
            }) }
        ensures legal { IfOk result IsLegalSgtin }
        ensures refused { IfErr result
            (λ refusal. IsFirstWrong refusal
            (record {
              filter = filter;
              digits = digits;
              company = company;
              item = item;
              serial = serial;
            })) }
    {
        if filter > 7 {
            return Err(SgtinRefusal::Filter);
        }
        if digits < 6 || digits > 12 {
            return Err(SgtinRefusal::Digits);
        }
        if company >= ten_to(digits) {
            return Err(SgtinRefusal::Company);
        }
        if u64::from(item) >= ten_to(ITEM_AND_COMPANY_DIGITS - digits) {
            return Err(SgtinRefusal::Item);
        }
        if serial >= SERIALS {
            return Err(SgtinRefusal::Serial);
        }
        Ok(Sgtin {
            filter,
            digits,
            company,
            item,
            serial,
        })
    }
}
