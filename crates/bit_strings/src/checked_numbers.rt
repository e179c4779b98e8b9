//! Numbers that a command carries, each within its range.
ghost use Rattle.std.specs.Prelude.{◌≡◌, ◌<◌, ◌≤◌, ◌↔◌, IsNone, IfSome};

use std::marker::Model;

/// The inventoried session of a Query, QueryRep, QueryAdjust or Select: S0 to S3 are 0 to 3
/// (6.3.2.2 Sessions and inventoried flags).
#[derive(Clone, Copy, Debug, PartialEq, Eq)]
pub struct Session {
    number: u8,
}

impl Model for Session {
    ghost use Rattle.std.specs.Prelude.{ℕ, ◌≤◌};

    ghost Value = { ℕ };

    ghost view = { λ a. a.number };

    ghost invariant = { λ a. a.number ≤ 3 };

    ghost inverse = { λ n. record { number = n } };
}

impl Session {
    /// The checked number. None comes exactly above 3.
    pub fn new(value: u8) -> Option<Self>
        ensures some { IfSome result (λ session. session ≡ value) }
        ensures none { IsNone result ↔ (3 < value) }
    {
        if value <= 3 {
            Some(Session { number: value })
        } else {
            None
        }
    }

    /// The number of the session, from 0 to 3.
    pub fn get(&self) -> u8
        ensures value { result ≡ self.now }
        ensures range { self.now ≤ 3 }
    {
        self.number
    }
}

/// The parameter Q of a Query: a tag draws its slot from `2^Q` slots. Q is from 0 to 15
/// (6.3.2.11.2.1 Query).
#[derive(Clone, Copy, Debug, PartialEq, Eq)]
pub struct QValue {
    number: u8,
}

impl Model for QValue {
    ghost use Rattle.std.specs.Prelude.{ℕ, ◌≤◌};

    ghost Value = { ℕ };

    ghost view = { λ a. a.number };

    ghost invariant = { λ a. a.number ≤ 15 };

    ghost inverse = { λ n. record { number = n } };
}

impl QValue {
    /// The checked number. None comes exactly above 15.
    pub fn new(value: u8) -> Option<Self>
        ensures some { IfSome result (λ q. q ≡ value) }
        ensures none { IsNone result ↔ (15 < value) }
    {
        if value <= 15 {
            Some(QValue { number: value })
        } else {
            None
        }
    }

    /// Q as a number, from 0 to 15.
    pub fn get(&self) -> u8
        ensures value { result ≡ self.now }
        ensures range { self.now ≤ 15 }
    {
        self.number
    }
}

/// The action of a Select, 0 to 7 (6.3.2.11.1.1 Select).
#[derive(Clone, Copy, Debug, PartialEq, Eq)]
pub struct Action {
    number: u8,
}

impl Model for Action {
    ghost use Rattle.std.specs.Prelude.{ℕ, ◌≤◌};

    ghost Value = { ℕ };

    ghost view = { λ a. a.number };

    ghost invariant = { λ a. a.number ≤ 7 };

    ghost inverse = { λ n. record { number = n } };
}

impl Action {
    /// The checked number. None comes exactly above 7.
    pub fn new(value: u8) -> Option<Self>
        ensures some { IfSome result (λ action. action ≡ value) }
        ensures none { IsNone result ↔ (7 < value) }
    {
        if value <= 7 {
            Some(Action { number: value })
        } else {
            None
        }
    }

    /// The number of the action of a Select, from 0 to 7.
    pub fn get(&self) -> u8
        ensures value { result ≡ self.now }
        ensures range { self.now ≤ 7 }
    {
        self.number
    }
}

/// The place of a bit or word in a bank, 0 to 268,435,455: what an extensible bit vector of four
/// blocks has room for (6.3.2.11.1.1 Select; the limit of four blocks is a choice of this profile).
#[derive(Clone, Copy, Debug, PartialEq, Eq)]
pub struct Pointer {
    number: u32,
}

impl Model for Pointer {
    ghost use Rattle.std.specs.Prelude.{ℕ, ◌≤◌};

    ghost Value = { ℕ };

    ghost view = { λ a. a.number };

    ghost invariant = { λ a. a.number ≤ 268435455 };

    ghost inverse = { λ n. record { number = n } };
}

impl Pointer {
    /// The checked number. None comes exactly above 268,435,455.
    pub fn new(value: u32) -> Option<Self>
        ensures some { IfSome result (λ pointer. pointer ≡ value) }
        ensures none { IsNone result ↔ (268435455 < value) }
    {
        if value <= 268435455 {
            Some(Pointer { number: value })
        } else {
            None
        }
    }

    /// The number of the pointer, from 0 to 268,435,455.
    pub fn get(&self) -> u32
        ensures value { result ≡ self.now }
        ensures range { self.now ≤ 268435455 }
    {
        self.number
    }
}

/// The payload of a Lock: 20 bits, the ten mask bits before the ten action bits
/// (6.3.2.11.3.5 Lock).
#[derive(Clone, Copy, Debug, PartialEq, Eq)]
pub struct Payload {
    number: u32,
}

impl Model for Payload {
    ghost use Rattle.std.specs.Prelude.{ℕ, ◌≤◌};

    ghost Value = { ℕ };

    ghost view = { λ a. a.number };

    ghost invariant = { λ a. a.number ≤ 1048575 };

    ghost inverse = { λ n. record { number = n } };
}

impl Payload {
    /// The checked number. None comes exactly above 1,048,575.
    pub fn new(value: u32) -> Option<Self>
        ensures some { IfSome result (λ payload. payload ≡ value) }
        ensures none { IsNone result ↔ (1048575 < value) }
    {
        if value <= 1048575 {
            Some(Payload { number: value })
        } else {
            None
        }
    }

    /// The payload of the Lock as a number of 20 bits.
    pub fn get(&self) -> u32
        ensures value { result ≡ self.now }
        ensures range { self.now ≤ 1048575 }
    {
        self.number
    }
}

/// A number of words, 1 to 255: the WordCount of a Read, BlockWrite or BlockErase that is not 0
/// (6.3.2.11.3.2 Read).
#[derive(Clone, Copy, Debug, PartialEq, Eq)]
pub struct Count1 {
    number: u8,
}

impl Model for Count1 {
    ghost use Rattle.std.specs.Prelude.{ℕ, ◌≤◌};

    ghost Value = { ℕ };

    ghost view = { λ a. a.number };

    ghost invariant = { λ a. (1 ≤ a.number) × (a.number ≤ 255) };

    ghost inverse = { λ n. record { number = n } };
}

impl Count1 {
    /// The checked number. None comes exactly at 0.
    pub fn new(value: u8) -> Option<Self>
        ensures some { IfSome result (λ count. count ≡ value) }
        ensures none { IsNone result ↔ (value ≡ 0) }
    {
        if value > 0 {
            Some(Count1 { number: value })
        } else {
            None
        }
    }

    /// The WordCount as a number of words, from 1 to 255.
    pub fn get(&self) -> u8
        ensures value { result ≡ self.now }
        ensures range { (1 ≤ self.now) × (self.now ≤ 255) }
    {
        self.number
    }
}
