// A page for people: words and numbers padded to the width of their column, and words between, in a text that is written whenever it
// is full. Words are bytes, as what is written is.
#![tactic(auto)]

ghost use Rattle.std.specs.Prelude.{◌≡◌, ◌+◌, ◌-◌, ◌<◌, [], ◌∷◌, length, replicate, IsOk, OnOk};
ghost use Rattle.std.specs.Io.KnownBytes.{Keeps};
ghost use Rattle.columns.specs.Laid.{laid, owed, Lays, behind_spaces};

use itoa::{Buffer, Integer};
use output::Unwritten;
use std::io::Write;

mod page;

pub use page::Page;

impl<W: Write> Page<W> {
    // A page without a row.
    pub fn blank(out: W) -> Page<W>
        ensures laid { laid W.contents result ≡ W.contents out }
        ensures owed { owed result ≡ 0 }
    {
        Page {
            out,
            text: [0; 4096],
            used: 0,
            owed: 0,
            written: Ok(()),
        }
    }

    // A cell with a word at its left.
    pub fn left(&mut self, word: &[u8], width: u8)
        ensures lays { Lays W.contents self.old self.new (behind_spaces (owed self.old) word.now) }
        ensures owed { owed self.new ≡ width - length word.now + 2 }
    {
        self.words(word);
        self.owed = padding(width, word.len()) + 2;
    }

    // A cell with a word at its right.
    pub fn right(&mut self, word: &[u8], width: u8)
        ensures lays { Lays W.contents self.old self.new (behind_spaces (owed self.old + (width - length word.now)) word.now) }
        ensures owed { owed self.new ≡ 2 }
    {
        self.spaces(self.owed + padding(width, word.len()));
        self.bytes(word);
        self.owed = 2;
    }

    // A cell with a number in decimal at its right.
    pub fn number<I: Integer>(&mut self, n: I, width: u8)
        ensures lays { Lays W.contents self.old self.new (behind_spaces (owed self.old + (width - length (I.text n))) (I.text n)) }
        ensures owed { owed self.new ≡ 2 }
    {
        self.right(Buffer::new().format(n).as_bytes(), width);
    }

    // Words that stand in no column: nothing is owed behind them.
    pub fn words(&mut self, words: &[u8])
        ensures lays { Lays W.contents self.old self.new (behind_spaces (owed self.old) words.now) }
        ensures owed { owed self.new ≡ 0 }
    {
        self.spaces(self.owed);
        self.bytes(words);
        self.owed = 0;
    }

    // A number in decimal among such words.
    pub fn figure<I: Integer>(&mut self, n: I)
        ensures lays { Lays W.contents self.old self.new (behind_spaces (owed self.old) (I.text n)) }
        ensures owed { owed self.new ≡ 0 }
    {
        self.words(Buffer::new().format(n).as_bytes());
    }

    // The end of a row. Nothing stands behind its last word.
    pub fn end(&mut self)
        ensures lays { Lays W.contents self.old self.new (10 ∷ []) }
        ensures owed { owed self.new ≡ 0 }
    {
        self.byte(b'\n');
        self.owed = 0;
    }

    // Writes what is left, and answers how writing the whole page ended.
    pub fn close(&mut self) -> Result<(), Unwritten>
        ensures { OnOk result (IsOk self.old.written × Keeps (laid W.contents self.old) (W.contents self.new.out)) }
    {
        self.flush();
        self.written
    }

    fn spaces(&mut self, count: usize)
        ensures lays { Lays W.contents self.old self.new (replicate count 32) }
        ensures owed { owed self.new ≡ owed self.old }
    {
        for _ in 0..count {
            self.byte(b' ');
        }
    }

    fn bytes(&mut self, bytes: &[u8])
        ensures lays { Lays W.contents self.old self.new bytes.now }
        ensures owed { owed self.new ≡ owed self.old }
    {
        for byte in bytes {
            self.byte(*byte);
        }
    }

    fn byte(&mut self, byte: u8)
        ensures lays { Lays W.contents self.old self.new (byte ∷ []) }
        ensures owed { owed self.new ≡ owed self.old }
    {
        if self.used == self.text.len() {
            self.flush();
        }
        self.text[self.used] = byte;
        self.used += 1;
    }

    // Writes the text, if all before it was written.
    fn flush(&mut self)
        ensures empty { self.new.used ≡ 0 }
        ensures lays { Lays W.contents self.old self.new [] }
        ensures owed { owed self.new ≡ owed self.old }
    {
        if self.written.is_ok() {
            self.written = output::write(&mut self.out, &self.text[..self.used]);
        }
        self.used = 0;
    }
}

// How many spaces fill a column of this width beside so many bytes.
fn padding(width: u8, length: usize) -> usize
    ensures { result ≡ width - length }
{
    usize::from(width).saturating_sub(length)
}
