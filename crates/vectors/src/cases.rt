// A case: its kind and its fields, read from a reader.
ghost use Rattle.std.specs.Prelude.{◌≤◌, length, OnOk};
ghost use Rattle.std.specs.Io.KnownBytes.{Consumes};
ghost use Rattle.vectors.specs.declared.cases.TheConstants.{LONGEST};

use crate::kinds::Kind;
use numbers::u32_at;
use std::io::Read;

// The length of the longest field.
const LONGEST: usize = 66000;

// No case is there: a kind that is none, a length above the longest, or an end in the midst of a case.
#[derive(Clone, Copy, Debug, PartialEq, Eq)]
pub(crate) struct NoCase;

// What a case begins with: its kind and the lengths of its fields.
#[derive(Clone, Copy, Debug, PartialEq, Eq)]
struct Head {
    kind: Kind,
    a: usize,
    b: usize,
    c: usize,
    ghost a_fits: { a ≤ LONGEST },
    ghost b_fits: { b ≤ LONGEST },
    ghost c_fits: { c ≤ LONGEST },
}

impl Head {
    // The head of the next case; none where the input has ended.
    fn read(reader: &mut impl Read) -> Result<Option<Head>, NoCase> {
        let mut bytes = [0u8; 13];
        match input::read_all(reader, &mut bytes).unwrap_or_else(|failed| failed.length) {
            0 => Ok(None),
            13 => Head::try_from(bytes).map(Some),
            _ => Err(NoCase),
        }
    }
}

impl TryFrom<[u8; 13]> for Head {
    ghost use Rattle.vectors.specs.Heads.{IsHeadIn};

    type Error = NoCase;

    ghost try_from_gives = { IsHeadIn };

    fn try_from(bytes: [u8; 13]) -> Result<Head, NoCase> {
        let kind = Kind::try_from(bytes[0])?;
        let a = u32_at(&bytes, 1) as usize;
        let b = u32_at(&bytes, 5) as usize;
        let c = u32_at(&bytes, 9) as usize;
        if (LONGEST < a) | (LONGEST < b) | (LONGEST < c) {
            return Err(NoCase);
        }
        Ok(Head { kind, a, b, c })
    }
}

// A kind and its fields.
#[derive(Drop)]
pub(crate) struct Case<'a> {
    pub(crate) kind: Kind,
    pub(crate) a: &'a [u8],
    pub(crate) b: &'a [u8],
    pub(crate) c: &'a mut [u8],
    ghost a_fits: { length a.now ≤ LONGEST },
}

// Room for the longest fields, so that nothing is allocated for them.
#[derive(Drop)]
pub(crate) struct Spaces {
    a: [u8; LONGEST],
    b: [u8; LONGEST],
    c: [u8; LONGEST],
}

impl Spaces {
    pub(crate) fn new() -> Spaces {
        Spaces {
            a: [0; LONGEST],
            b: [0; LONGEST],
            c: [0; LONGEST],
        }
    }

    // The next case, with its fields in these spaces; none where the input has ended.
    pub(crate) fn read_case(&mut self, reader: &mut impl Read) -> Result<Option<Case<'_>>, NoCase> {
        let Some(head) = Head::read(reader)? else {
            return Ok(None);
        };
        let Spaces { a, b, c } = self;
        let a = &mut a[..head.a];
        let b = &mut b[..head.b];
        let c = &mut c[..head.c];
        fill(reader, a)?;
        fill(reader, b)?;
        fill(reader, c)?;
        Ok(Some(Case {
            kind: head.kind,
            a,
            b,
            c,
        }))
    }
}

// Reads the whole of a field.
fn fill<R: Read>(reader: &mut R, field: &mut [u8]) -> Result<(), NoCase>
    ensures { OnOk result (Consumes (R.remaining reader.old) (R.remaining reader.new) field.new) }
{
    match input::read_all(reader, field) {
        Ok(count) if count == field.len() => Ok(()),
        _ => Err(NoCase),
    }
}
