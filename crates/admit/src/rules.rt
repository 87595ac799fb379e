// The lines of the rules that a limit table breaks.
use admission::{is_strict, left_side, right_entry};
use columns::Page;
use limits::{Table, entry_at};
use std::io::Write;
use tablewords::names::name;

// A table with its entries, and the page on which these lines are laid.
#[derive(Drop)]
pub(crate) struct Report<'a, W> {
    page: &'a mut Page<W>,
    table: Table,
    entries: [u16; 22],
}

impl<'a, W: Write> Report<'a, W> {
    pub(crate) fn of(page: &'a mut Page<W>, table: Table) -> Report<'a, W> {
        Report {
            page,
            table,
            entries: table.entries(),
        }
    }

    // The lines of all of them, rule by rule.
    pub(crate) fn broken(&mut self) {
        for rule in 1..=16 {
            if admission::is_broken(self.table, rule) {
                self.lines(rule);
            }
        }
    }

    // Those of one rule that is broken.
    fn lines(&mut self, rule: u8) {
        match rule {
            1 => self.zeros(),
            16 => self.delays(),
            _ => self.line(rule),
        }
    }

    // Rule 1: each of the first eighteen entries that is 0.
    fn zeros(&mut self) {
        for entry in 0..18 {
            self.unless_set(1, entry);
        }
    }

    // Rule 16: opening, then closing, each by its plain delay, its error delay and its device.
    fn delays(&mut self) {
        self.delay(18, 19, 3);
        self.delay(20, 21, 4);
    }

    fn delay(&mut self, plain: usize, error: usize, device: usize) {
        self.unless_set(16, plain);
        if self.value(error) <= self.value(plain) {
            self.against(plain, b" is not less than ", error);
        }
        if self.value(device) < self.value(error) {
            self.against(error, b" is more than ", device);
        }
    }

    // A line where an entry is 0.
    fn unless_set(&mut self, rule: u8, entry: usize) {
        if self.value(entry) == 0 {
            self.start(rule);
            self.entry(entry);
            self.page.words(b" is less than 1");
            self.page.end();
        }
    }

    // The line of rule 16 for two entries.
    fn against(&mut self, entry: usize, words: &[u8], other: usize) {
        self.start(16);
        self.entry(entry);
        self.page.words(words);
        self.entry(other);
        self.page.end();
    }

    // The line of a rule from 2 to 15.
    fn line(&mut self, rule: u8) {
        self.start(rule);
        self.left(rule);
        self.page.words(if is_strict(rule) {
            b" is not less than "
        } else {
            b" is more than "
        });
        self.entry(right_entry(rule));
        self.page.end();
    }

    fn start(&mut self, rule: u8) {
        self.page.words(b"rule ");
        self.page.figure(rule);
        self.page.words(b": ");
    }

    // Its left side, and what this comes to where it is a sum.
    fn left(&mut self, rule: u8) {
        match rule {
            8 => self.entry(7),
            9 => self.entry(8),
            10 => self.entry(11),
            11 => self.entry(12),
            _ => {
                self.sum(rule);
                self.page.words(b" = ");
                self.page.figure(left_side(self.table, rule));
            }
        }
    }

    fn sum(&mut self, rule: u8) {
        match rule {
            // Both ways over the channel, and the limit of a device.
            2..=7 => {
                self.page.words(b"2 * ");
                self.terms(&[0, usize::from(rule) - 1]);
            }
            // F and N: the engine, the clutch opened, the gear, and the clutch closed.
            12 => self.terms(&[9, 13, 14, 16]),
            13 => self.terms(&[10, 13, 15, 16]),
            // G1, by way of F.
            14 => {
                self.terms(&[8, 15]);
                self.page.words(b" + F ");
                self.page.figure(left_side(self.table, 12));
            }
            // G2.
            _ => self.terms(&[10, 13, 15, 14, 16]),
        }
    }

    // Entries, with a plus sign between.
    fn terms(&mut self, entries: &[usize]) {
        for (index, entry) in entries.iter().enumerate() {
            if index != 0 {
                self.page.words(b" + ");
            }
            self.entry(*entry);
        }
    }

    // An entry's name and its milliseconds.
    fn entry(&mut self, entry: usize) {
        let value = self.value(entry);
        self.page.words(name(entry));
        self.page.words(b" ");
        self.page.figure(value);
    }

    fn value(&self, entry: usize) -> u16 {
        entry_at(&self.entries, entry)
    }
}
