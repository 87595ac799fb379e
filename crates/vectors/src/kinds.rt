// The kinds of cases: their numbers, the words of their lines, and the lengths of their fields.
ghost use Rattle.std.specs.Prelude.{◌≡◌, Some};
ghost use Rattle.vectors.specs.Cases.{sized};
ghost use Rattle.vectors.specs.Kinds.{number_of, word_of, Decodes};

use crate::cases::NoCase;
use std::fmt;

#[derive(Clone, Copy, Debug, PartialEq, Eq)]
pub(crate) enum Kind {
    Admit,
    Step,
    Advance,
    Read,
    Judge,
    Line,
    Join,
    Write,
    Manual,
    Block,
    List,
    Fetch,
    Extend,
    Text,
    Tighter,
    Print,
    Rules,
}

impl TryFrom<u8> for Kind {
    type Error = NoCase;

    ghost try_from_gives = { Decodes };

    fn try_from(number: u8) -> Result<Kind, NoCase> {
        match number {
            1 => Ok(Kind::Admit),
            2 => Ok(Kind::Step),
            3 => Ok(Kind::Advance),
            4 => Ok(Kind::Read),
            5 => Ok(Kind::Judge),
            6 => Ok(Kind::Line),
            7 => Ok(Kind::Join),
            8 => Ok(Kind::Write),
            9 => Ok(Kind::Manual),
            10 => Ok(Kind::Block),
            11 => Ok(Kind::List),
            12 => Ok(Kind::Fetch),
            13 => Ok(Kind::Extend),
            14 => Ok(Kind::Text),
            15 => Ok(Kind::Tighter),
            16 => Ok(Kind::Print),
            17 => Ok(Kind::Rules),
            _ => Err(NoCase),
        }
    }
}

// The word of its lines.
impl fmt::Display for Kind {
    ghost output = { λ kind. Some (word_of kind) };

    fn fmt<W: fmt::Write>(&self, f: &mut fmt::Formatter<W>) -> fmt::Result {
        f.write_str(match self {
            Kind::Admit => "admit",
            Kind::Step => "step",
            Kind::Advance => "advance",
            Kind::Read => "read",
            Kind::Judge => "judge",
            Kind::Line => "line",
            Kind::Join => "join",
            Kind::Write => "write",
            Kind::Manual => "manual",
            Kind::Block => "block",
            Kind::List => "list",
            Kind::Fetch => "fetch",
            Kind::Extend => "extend",
            Kind::Text => "text",
            Kind::Tighter => "tighter",
            Kind::Print => "print",
            Kind::Rules => "rules",
        })
    }
}

impl Kind {
    // The fields have the lengths that a case of this kind should have.
    pub(crate) fn is_sized(self, a: usize, b: usize, c: usize) -> bool
        ensures { result ≡ sized (number_of self) a b c }
    {
        match self {
            Kind::Admit => (a == 44) & (b == 0) & (c == 0),
            Kind::Step => (a == 69) & (b == 0) & (c == 0),
            Kind::Advance => (a == 68) & (b == 0) & (c == 0),
            Kind::Read | Kind::Judge | Kind::Text => (a == 0) & (c == 0),
            Kind::Line | Kind::List => a == 0,
            Kind::Join => a == 16,
            Kind::Write => (45 <= a) & (a <= 66000) & (a % 4 == 1),
            Kind::Manual => (a == 44) & (b % 4 == 0) & (c == 0),
            Kind::Block => (a == 64) & (c == 0),
            Kind::Fetch => (a == 8) & (c == 0),
            Kind::Extend => a == 76,
            Kind::Tighter => (a == 88) & (b == 0) & (c == 0),
            Kind::Print | Kind::Rules => (a == 44) & (b == 0) & (c == 0),
        }
    }
}
