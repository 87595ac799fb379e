// The line that the program prints of document 01: a word, six numbers in decimal and a line feed, laid into a lent buffer.
#![tactic(auto)]

ghost use Rattle.std.specs.Prelude.{◌≡◌, ◌++◌, ◌+◌, ◌≤◌};
ghost use Rattle.line.specs.Lines.{word_of, field, line_of};
ghost use Rattle.line.specs.Laying.{laid_in, laid, after};
ghost use Rattle.arrayvec.specs.ArrayVec.{array_vec_len};

use arrayvec::ArrayVec;
use itoa::Buffer;

#[derive(Clone, Copy, Debug, PartialEq, Eq)]
pub enum Word {
    Accepted,
    Refused,
    Unread,
}

// The parts of a line in their order: the records accepted, the reason, the state's clock, phase and box, and the excess. The reason is a
// number of document 01's list: the line prints it, by `line_of`.
#[derive(Clone, Copy, Debug, PartialEq, Eq)]
pub struct Line {
    pub word: Word,
    pub count: u64,
    pub number: u8,
    pub clock: u32,
    pub phase: u8,
    pub gear_box: u8,
    pub excess: u64,
}

// What is written does not fit: document 01's 15.
#[derive(Clone, Copy, Debug, PartialEq, Eq)]
pub struct NoRoom;

impl NoRoom {
    // Its number of document 01's list: a method, since `u8::from` would not say at a call which number is meant.
    pub fn number(self) -> u8
        ensures { result ≡ 15 }
    {
        15
    }
}

// Lays the line at the start of out and leaves the bytes after it, or leaves every byte where it does not fit. The length is the line's.
pub fn lay(line: Line, out: &mut [u8]) -> Result<usize, NoRoom>
    ensures value { laid_in result ≡ laid (line_of line) out.old }
    ensures out_after { out.new ≡ after (line_of line) out.old }
{
    place(line.spelled().as_slice(), out)
}

// The same with any text.
pub fn place(text: &[u8], out: &mut [u8]) -> Result<usize, NoRoom>
    ensures value { laid_in result ≡ laid text.now out.old }
    ensures out_after { out.new ≡ after text.now out.old }
{
    let size = text.len();
    if out.len() < size {
        return Err(NoRoom);
    }
    out[..size].copy_from_slice(text);
    Ok(size)
}

impl Line {
    // Its text: at most a word of 8 bytes, six numbers of a space and 20 digits, and a line feed.
    fn spelled(self) -> ArrayVec<u8, 135>
        ensures { result.items ≡ line_of self }
    {
        let mut text = ArrayVec::new();
        append_word(&mut text, self.word);
        append_number(&mut text, self.count);
        append_number(&mut text, u64::from(self.number));
        append_number(&mut text, u64::from(self.clock));
        append_number(&mut text, u64::from(self.phase));
        append_number(&mut text, u64::from(self.gear_box));
        append_number(&mut text, self.excess);
        text.try_extend_from_slice(b"\n").unwrap();
        text
    }
}

// A word at the start of a text.
fn append_word(text: &mut ArrayVec<u8, 135>, word: Word)
    requires { array_vec_len text.old ≡ 0 }
    ensures text_after { text.new.items ≡ text.old.items ++ word_of word }
    ensures upper_bound { array_vec_len text.new ≤ 8 }
{
    match word {
        Word::Accepted => text.try_extend_from_slice(b"accepted").unwrap(),
        Word::Refused => text.try_extend_from_slice(b"refused").unwrap(),
        Word::Unread => text.try_extend_from_slice(b"unread").unwrap(),
    }
}

// A space and a number behind a text.
fn append_number(text: &mut ArrayVec<u8, 135>, n: u64)
    requires { array_vec_len text.old + 21 ≤ 135 }
    ensures text_after { text.new.items ≡ text.old.items ++ field n }
    ensures upper_bound { array_vec_len text.new ≤ array_vec_len text.old + 21 }
{
    text.try_extend_from_slice(b" ").unwrap();
    text.try_extend_from_slice(Buffer::new().format(n).as_bytes())
        .unwrap();
}
