//! The URI of an SGTIN (GS1 Tag Data Standard, EPC Tag URI).
ghost use Rattle.std.specs.Prelude.{◌≡◌, ◌≢◌, ℕ, ◌+◌, ◌≤◌, ◌<◌, ◌^◌, ◌↔◌, List, [], ◌∷◌, ◌++◌, length, take, drop, Result, IfOk, IfErr, IfSome, IfNone};
ghost use Rattle.std.specs.Fmt.{decimal};
ghost use Rattle.text_fields.specs.Lines.{Lacks, pieces_between};
ghost use Rattle.epc_sgtin.specs.SgtinValue.{all_digits, IsFilter, IsSerial};
ghost use Rattle.epc_sgtin.specs.Uri.{dot, padded, prefix};
ghost use Rattle.epc_sgtin.specs.UriFaults.{AreDigits, IsFilterPart, IsCompanyPart, IsSerialPart};

use crate::digits::{digit_count, number_of, write_digits};
use crate::fixed_uri::Uri;
use crate::partitions::ITEM_AND_COMPANY_DIGITS;
use crate::value::{SERIALS, Sgtin};
use arrayvec::ArrayVec;
use text_fields::{number, push_bytes};
use thiserror::Error;

/// What each URI begins with.
const PREFIX: &[u8] = b"urn:epc:tag:sgtin-96:";

/// The byte that joins the four parts behind the prefix of a URI.
const DOT: u8 = b'.';

/// The most digits of a part.
const MOST_DIGITS: usize = 12;

/// Why a text is no URI of an SGTIN-96: the first of these that applies.
#[derive(Clone, Copy, Debug, PartialEq, Eq, Error)]
pub enum UriFault {
    /// The text does not begin with `urn:epc:tag:sgtin-96:`.
    #[error("the text does not begin with urn:epc:tag:sgtin-96:")]
    Prefix,
    /// What stands behind that is not four parts, joined by dots.
    #[error("there are not four parts, joined by dots")]
    Parts,
    /// The filter is not one digit from 0 to 7.
    #[error("the filter is not one digit from 0 to 7")]
    Filter,
    /// The company is not 6 to 12 digits.
    #[error("the company is not 6 to 12 digits")]
    Company,
    /// The item has not as many digits as the company leaves of 13.
    #[error("the item has not as many digits as the company leaves of 13")]
    Item,
    /// The serial is no decimal number without leading zeros, or it is not below 274,877,906,944.
    #[error("the serial is no decimal number below 274877906944 without leading zeros")]
    Serial,
}

impl Sgtin {
    ghost use Rattle.epc_sgtin.specs.Uri.{IsUriOf};
    ghost use Rattle.epc_sgtin.specs.UriFaults.{RefusesUri, IsUriAnswer};
    ghost use Rattle.epc_sgtin.specs.SgtinValue.{SgtinValue};
    ghost use Rattle.epc_sgtin.specs.declared.tag_uri.UriFault.{UriFault};

    /// Writes the URI in place of what the text holds.
    pub fn write_uri(&self, out: &mut Uri)
        ensures { IsUriOf self.now out.new }
    {
        let bytes = &mut out.bytes;
        bytes.clear();
        push_bytes(bytes, PREFIX);
        bytes.push(b'0' + self.filter);
        bytes.push(DOT);
        push_digits(bytes, self.company, usize::from(self.digits));
        bytes.push(DOT);
        push_digits(
            bytes,
            u64::from(self.item),
            usize::from(ITEM_AND_COMPANY_DIGITS - self.digits),
        );
        bytes.push(DOT);
        push_digits(bytes, self.serial, digit_count(self.serial));
    }

    /// The SGTIN that a URI names, or the first reason for which the text is the URI of none.
    pub fn read_uri(text: &[u8]) -> Result<Sgtin, UriFault>
        ensures ok { IfOk result (λ sgtin. IsUriOf sgtin text.now) }
        ensures refused { IfErr result (λ fault. RefusesUri fault text.now) }
        // What the text is is answered.
        ensures only { (answer : Result SgtinValue UriFault) → IsUriAnswer answer text.now
            → result ≡ answer }
    {
        let Some(rest) = behind_prefix(text) else {
            return Err(UriFault::Prefix);
        };
        let Some((filter, company, item, serial)) = four_parts(rest) else {
            return Err(UriFault::Parts);
        };
        let Some(filter) = filter_of(filter) else {
            return Err(UriFault::Filter);
        };
        let Some(company_number) = company_of(company) else {
            return Err(UriFault::Company);
        };
        let Some(item_number) = item_of(item, company.len()) else {
            return Err(UriFault::Item);
        };
        let Some(serial) = serial_of(serial) else {
            return Err(UriFault::Serial);
        };
        Ok(Sgtin {
            filter,
            digits: company.len() as u8,
            company: company_number,
            item: item_number,
            serial,
        })
    }
}

/// Adds the last digits of a value to a text, `width` of them.
fn push_digits(bytes: &mut ArrayVec<u8, 60>, value: u64, width: usize)
    requires narrow { width ≤ MOST_DIGITS }
    requires room { length bytes.old.items + width ≤ 60 }
    ensures bytes { bytes.new.items ≡ bytes.old.items ++ padded value width }
    ensures count { length bytes.new.items ≡ length bytes.old.items + width }
{
    let mut room = [b'0'; MOST_DIGITS];
    let digits = &mut room[..width];
    write_digits(value, digits);
    push_bytes(bytes, digits);
}

/// What stands behind the prefix; none exactly where the text does not begin with it.
fn behind_prefix(text: &[u8]) -> Option<&[u8]>
    ensures cut { IfSome result (λ rest. text.now ≡ prefix ++ rest.now) }
    ensures none { IfNone result ((rest : List ℕ) → text.now ≢ prefix ++ rest) }
{
    text.strip_prefix(PREFIX)
}

/// The first place of a dot, counted from 0; none exactly where there is no dot.
fn first_dot(text: &[u8]) -> Option<usize>
    ensures found { IfSome result
        (λ place. text.now ≡ take place text.now ++ dot ∷ drop (place + 1) text.now) }
    ensures first { IfSome result (λ place. Lacks dot (take place text.now)) }
    ensures within { IfSome result (λ place. place < length text.now) }
    ensures none { IfNone result (Lacks dot text.now) }
{
    text.iter().position(|byte| *byte == DOT)
}

/// What stands before the first dot, and what stands behind it; none exactly where there is no dot.
fn split_at_dot(text: &[u8]) -> Option<(&[u8], &[u8])>
    ensures pieces { IfSome result
        (λ parts. pieces_between dot text.now ≡ parts.0.now ∷ pieces_between dot parts.1.now) }
    ensures none { IfNone result (pieces_between dot text.now ≡ text.now ∷ []) }
{
    let end = first_dot(text)?;
    Some((&text[..end], &text[end + 1..]))
}

/// The four parts that dots join; none exactly where there are not four.
fn four_parts(text: &[u8]) -> Option<(&[u8], &[u8], &[u8], &[u8])>
    ensures parts { IfSome result
        (λ it. pieces_between dot text.now ≡ it.0.now ∷ it.1.now ∷ it.2.now ∷ it.3.now ∷ []) }
    ensures none { IfNone result (length (pieces_between dot text.now) ≢ 4) }
{
    let (first, rest) = split_at_dot(text)?;
    let (second, rest) = split_at_dot(rest)?;
    let (third, fourth) = split_at_dot(rest)?;
    match split_at_dot(fourth) {
        Some(_) => None,
        None => Some((first, second, third, fourth)),
    }
}

/// The filter that a part writes.
fn filter_of(part: &[u8]) -> Option<u8>
    ensures some { IfSome result (λ filter. IsFilter filter × (part.now ≡ decimal filter)) }
    ensures none { IfNone result (¬ IsFilterPart part.now) }
{
    let filter = number(part, 7)?;
    Some(filter as u8)
}

/// The company that a part writes.
fn company_of(part: &[u8]) -> Option<u64>
    ensures some { IfSome result
        (λ company. IsCompanyPart part.now × (company < 10 ^ length part.now)
        × (part.now ≡ padded company (length part.now))) }
    ensures none { IfNone result (¬ IsCompanyPart part.now) }
{
    if part.len() < 6 || part.len() > 12 {
        return None;
    }
    number_of(part)
}

/// The item that a part writes, behind a company of so many digits.
fn item_of(part: &[u8], company_digits: usize) -> Option<u32>
    requires least { 6 ≤ company_digits }
    requires most { company_digits ≤ 12 }
    ensures some { IfSome result
        (λ item. (company_digits + length part.now ≡ all_digits) × AreDigits part.now
        × (item < 10 ^ length part.now) × (part.now ≡ padded item (length part.now))) }
    ensures none { IfNone result
        (company_digits + length part.now ≡ all_digits → ¬ AreDigits part.now) }
{
    if company_digits + part.len() != usize::from(ITEM_AND_COMPANY_DIGITS) {
        return None;
    }
    let item = number_of(part)?;
    Some(item as u32)
}

/// The serial that a part writes.
fn serial_of(part: &[u8]) -> Option<u64>
    ensures some { IfSome result (λ serial. IsSerial serial × (part.now ≡ decimal serial)) }
    ensures none { IfNone result (¬ IsSerialPart part.now) }
{
    if part.is_empty() || part.len() > MOST_DIGITS {
        return None;
    }
    let serial = number_of(part)?;
    // A number has leading zeros where it is written with more digits than it has.
    if serial < SERIALS && digit_count(serial) == part.len() {
        Some(serial)
    } else {
        None
    }
}
