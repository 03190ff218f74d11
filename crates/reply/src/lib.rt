// The numbered replies of the papers: why an entry refused, and whether it did.
#![tactic(auto)]

ghost use Rattle.std.specs.Prelude.{◌≡◌};
ghost use Rattle.reply.specs.Replies.{number_of, name_of};

use std::error::Error;
use std::fmt;

// One case a number. Requests that add numbers add their cases at the end, here and in `number_of`.
#[derive(Clone, Copy, Debug, PartialEq, Eq)]
pub enum Refusal {
    BadFrame = 1,
    BadRows = 2,
    BadFace = 3,
    BadLevel = 4,
    BadRange = 5,
    BadNumber = 6,
    OffSphere = 7,
    Behind = 8,
    TooFar = 9,
    NotReduced = 10,
    OutOfFace = 11,
    NotAdjacent = 12,
    NoCrossing = 13,
    BadLine = 14,
    BadList = 15,
}

impl fmt::Display for Refusal {
    fn fmt<W: fmt::Write>(&self, f: &mut fmt::Formatter<W>) -> fmt::Result {
        f.write_str(self.name())
    }
}

impl Error for Refusal {}

impl Refusal {
    pub fn name(self) -> &'static str
        ensures { result.now ≡ name_of self }
    {
        match self {
            Refusal::BadFrame => "BadFrame",
            Refusal::BadRows => "BadRows",
            Refusal::BadFace => "BadFace",
            Refusal::BadLevel => "BadLevel",
            Refusal::BadRange => "BadRange",
            Refusal::BadNumber => "BadNumber",
            Refusal::OffSphere => "OffSphere",
            Refusal::Behind => "Behind",
            Refusal::TooFar => "TooFar",
            Refusal::NotReduced => "NotReduced",
            Refusal::OutOfFace => "OutOfFace",
            Refusal::NotAdjacent => "NotAdjacent",
            Refusal::NoCrossing => "NoCrossing",
            Refusal::BadLine => "BadLine",
            Refusal::BadList => "BadList",
        }
    }

    pub fn number(self) -> u32
        ensures { result ≡ number_of self }
    {
        self as u32
    }
}
