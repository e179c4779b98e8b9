//! The parameters of a link.
ghost use Rattle.std.specs.Prelude.{◌≡◌, IfOk, IfErr};

use crate::Code;
use crate::ranges::{is_pw, is_rtcal, is_tari, is_trcal};
use std::marker::Model;
use thiserror::Error;

/// The parameters of a link, always in the ranges of the standard (6.3.1.2.4 Tari values, 6.3.1.2.8
/// preamble and frame-sync, Table 6.5 for the width PW of a low), in whole nanoseconds.
///
/// A contract sees it as a record of its parameters.
#[derive(Clone, Copy, Debug, PartialEq, Eq)]
pub struct Link {
    tari: u32,
    rtcal: u32,
    trcal: u32,
    pw: u32,
    dr: bool,
    code: Code,
    trext: bool,
}

/// Which parameter of a link is the first that is out of its range.
#[derive(Clone, Copy, Debug, PartialEq, Eq, Error)]
pub enum LinkRefusal {
    /// Tari is below 6,250 or above 25,000 nanoseconds.
    #[error("Tari is not 6,250 to 25,000 ns")]
    Tari,
    /// RTcal is below 2.5 Tari or above 3 Tari.
    #[error("RTcal is not 2.5 to 3 Tari")]
    RtCal,
    /// TRcal is below 1.1 RTcal or above 3 RTcal.
    #[error("TRcal is not 1.1 to 3 RTcal")]
    TrCal,
    /// PW is below 2,000 nanoseconds or 0.265 Tari, or above 0.525 Tari.
    #[error("PW is not from the larger of 2,000 ns and 0.265 Tari to 0.525 Tari")]
    Pw,
}

impl Model for Link {
    ghost use Rattle.pie_line.specs.Link.{LinkValue, IsLegalLink};

    ghost Value = { LinkValue };

    ghost view = { λ a. record { tari = a.tari; rtcal = a.rtcal; trcal = a.trcal; pw = a.pw; dr = a.dr; code = a.code; trext = a.trext } };

    ghost invariant = { λ a. IsLegalLink
        (record { tari = a.tari; rtcal = a.rtcal; trcal = a.trcal; pw = a.pw; dr = a.dr; code = a.code; trext = a.trext }) };

    ghost inverse = { λ v. record { tari = v.tari; rtcal = v.rtcal; trcal = v.trcal; pw = v.pw; dr = v.dr; code = v.code; trext = v.trext } };
}

impl Link {
    ghost use Rattle.pie_line.specs.Link.{LinkValue, IsLegalLink, blf_of};
    ghost use Rattle.pie_line.specs.LinkRefusal.{IsFirstBroken};

    /// The link with these parameters: durations in nanoseconds, and DR, the code and TRext as a Query
    /// carries them. It is refused by the first range that is broken, in the order Tari, RTcal, TRcal, PW.
    pub fn new(
        tari: u32,
        rtcal: u32,
        trcal: u32,
        pw: u32,
        dr: bool,
        code: Code,
        trext: bool,
    ) -> Result<Link, LinkRefusal>
        ensures link { IfOk result
            (λ link. link ≡ record {
              tari = tari;
              rtcal = rtcal;
              trcal = trcal;
              pw = pw;
              dr = dr;
              code = code;
              trext = trext;
            }) }
        ensures legal { IfOk result IsLegalLink }
        ensures refused { IfErr result (λ refusal. IsFirstBroken refusal tari rtcal trcal pw) }
    {
        if !is_tari(tari) {
            return Err(LinkRefusal::Tari);
        }
        if !is_rtcal(tari, rtcal) {
            return Err(LinkRefusal::RtCal);
        }
        if !is_trcal(rtcal, trcal) {
            return Err(LinkRefusal::TrCal);
        }
        if !is_pw(tari, pw) {
            return Err(LinkRefusal::Pw);
        }
        Ok(Link {
            tari,
            rtcal,
            trcal,
            pw,
            dr,
            code,
            trext,
        })
    }

    /// The duration of a data-0, in nanoseconds.
    pub fn tari(&self) -> u32
        ensures value { result ≡ self.now.tari }
        ensures legal { IsLegalLink self.now }
    {
        self.tari
    }

    /// The duration of a data-0 and a data-1 together, in nanoseconds.
    pub fn rtcal(&self) -> u32
        ensures value { result ≡ self.now.rtcal }
        ensures legal { IsLegalLink self.now }
    {
        self.rtcal
    }

    /// The duration that sets the backscatter link frequency, in nanoseconds.
    pub fn trcal(&self) -> u32
        ensures value { result ≡ self.now.trcal }
        ensures legal { IsLegalLink self.now }
    {
        self.trcal
    }

    /// The duration of each low of a symbol, in nanoseconds.
    pub fn pw(&self) -> u32
        ensures value { result ≡ self.now.pw }
        ensures legal { IsLegalLink self.now }
    {
        self.pw
    }

    /// The bit DR of a Query: `false` is a divide ratio of 8, `true` one of 64/3.
    pub fn dr(&self) -> bool
        ensures value { result ≡ self.now.dr }
        ensures legal { IsLegalLink self.now }
    {
        self.dr
    }

    /// The line code of the backscatter.
    pub fn code(&self) -> Code
        ensures value { result ≡ self.now.code }
        ensures legal { IsLegalLink self.now }
    {
        self.code
    }

    /// Whether the backscatter begins with the long pilot.
    pub fn trext(&self) -> bool
        ensures value { result ≡ self.now.trext }
        ensures legal { IsLegalLink self.now }
    {
        self.trext
    }

    /// The backscatter link frequency, the divide ratio over TRcal (6.3.1.2.8), as a fraction whose
    /// unit is one over a nanosecond.
    pub fn blf(&self) -> (u32, u32)
        ensures value { result ≡ blf_of self.now }
        ensures legal { IsLegalLink self.now }
    {
        if self.dr {
            (64, 3 * self.trcal)
        } else {
            (8, self.trcal)
        }
    }
}
