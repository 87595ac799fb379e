// The words of a line of a table's text, and the number that a word is; which entry it names is in names.rt.
#![tactic(auto)]

ghost use Rattle.std.specs.Prelude.{◌≡◌, ◌+◌, ◌*◌, length};
ghost use Rattle.tablewords.specs.Words.{Run, holds, leading, word, behind, fitting, number_of, as_number};

pub mod names;

// Why a word is no number of 16 bits: it is above 65,535, or it isn't of digits alone.
#[derive(Clone, Copy, Debug, PartialEq, Eq)]
pub enum NoNumber {
    Above,
    NotDigits,
}

// Which bytes a run is made of: blanks, those of words, or those of a line.
#[derive(Clone, Copy, Debug, PartialEq, Eq)]
pub enum Class {
    Blank,
    Letter,
    Inline,
}

// How many first bytes are of a class. A public function asks nothing of its caller (docs/PROMISES.md lists this one), and one that takes
// a test asks that the test can be called: so the class is named here, and `leading` takes the test.
pub fn run(text: &[u8], class: Class) -> usize
    ensures { result ≡ length (leading class text.now) }
{
    match class {
        Class::Blank => leading(text, is_blank),
        Class::Letter => leading(text, is_letter),
        Class::Inline => leading(text, |byte| byte != b'\n'),
    }
}

// How many first bytes a test holds of.
fn leading<F: Fn(u8) -> bool>(text: &[u8], test: F) -> usize
    requires { F.IsAlwaysCallable test }
    ensures { Run (F.post test) text.now result }
{
    text.iter()
        .position(|byte| !test(*byte))
        .unwrap_or(text.len())
}

// Space, tab or carriage return.
fn is_blank(byte: u8) -> bool
    ensures { result ≡ holds Class.Blank byte }
{
    matches!(byte, b' ' | b'\t' | b'\r')
}

// A byte of a word: no blank, no line feed, and no # of a comment.
fn is_letter(byte: u8) -> bool
    ensures { result ≡ holds Class.Letter byte }
{
    !is_blank(byte) && byte != b'\n' && byte != b'#'
}

// The first word of a line, and what stands behind it; no word where the line ends, or its comment begins, before there is one.
pub fn first_word(line: &[u8]) -> (&[u8], &[u8])
    ensures word { result.0.now ≡ word line.now }
    ensures behind { result.1.now ≡ behind line.now }
{
    let from = leading(line, is_blank);
    let text = &line[from..];
    let size = leading(text, is_letter);
    text.split_at(size)
}

// The first of the two.
pub fn word(line: &[u8]) -> &[u8]
    ensures { result.now ≡ word line.now }
{
    first_word(line).0
}

// The second.
pub fn behind(line: &[u8]) -> &[u8]
    ensures { result.now ≡ behind line.now }
{
    first_word(line).1
}

// The number that a word is.
pub fn number_of(word: &[u8]) -> Result<u16, NoNumber>
    ensures { result ≡ as_number (number_of word.now) }
{
    if word.is_empty() || !word.iter().all(|byte| byte.is_ascii_digit()) {
        return Err(NoNumber::NotDigits);
    }
    let mut value: u16 = 0;
    for byte in word {
        value = with_digit(value, *byte - b'0').ok_or(NoNumber::Above)?;
    }
    Ok(value)
}

// A value with one digit more, where 16 bits hold it.
fn with_digit(value: u16, digit: u8) -> Option<u16>
    ensures { result ≡ fitting (value * 10 + digit) }
{
    value.checked_mul(10)?.checked_add(u16::from(digit))
}
