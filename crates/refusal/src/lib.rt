// Document 01's refusals, by name and by number.
#![tactic(auto)]

ghost use Rattle.std.specs.Prelude.{◌≡◌};
ghost use Rattle.refusal.specs.Numbers.{number_of, number_for};

use std::convert::TryFrom;
use std::fmt;

#[derive(Clone, Copy, Debug, PartialEq, Eq)]
pub enum Refusal {
    BadWord,
    TooMany,
    BadShape,
    DoubleDef,
    BadInterval,
    UnknownFunc,
    BadKey,
    NoSlot,
    NoRoom,
    BadMove,
    BadTarget,
    BadReg,
}

impl Refusal {
    pub fn number(self) -> u8
        ensures { result ≡ number_of self }
    {
        match self {
            Refusal::BadWord => 1,
            Refusal::TooMany => 2,
            Refusal::BadShape => 3,
            Refusal::DoubleDef => 4,
            Refusal::BadInterval => 5,
            Refusal::UnknownFunc => 6,
            Refusal::BadKey => 7,
            Refusal::NoSlot => 8,
            Refusal::NoRoom => 9,
            Refusal::BadMove => 10,
            Refusal::BadTarget => 11,
            Refusal::BadReg => 12,
        }
    }
}

// The number of an answer: 0 where it is no refusal.
pub fn number_for<T: Copy>(answer: Result<T, Refusal>) -> u8
    ensures { result ≡ number_for answer }
{
    match answer {
        Ok(_) => 0,
        Err(why) => why.number(),
    }
}

impl fmt::Display for Refusal {
    fn fmt<W: fmt::Write>(&self, f: &mut fmt::Formatter<W>) -> fmt::Result {
        f.write_str(match self {
            Refusal::BadWord => "BadWord",
            Refusal::TooMany => "TooMany",
            Refusal::BadShape => "BadShape",
            Refusal::DoubleDef => "DoubleDef",
            Refusal::BadInterval => "BadInterval",
            Refusal::UnknownFunc => "UnknownFunc",
            Refusal::BadKey => "BadKey",
            Refusal::NoSlot => "NoSlot",
            Refusal::NoRoom => "NoRoom",
            Refusal::BadMove => "BadMove",
            Refusal::BadTarget => "BadTarget",
            Refusal::BadReg => "BadReg",
        })
    }
}
