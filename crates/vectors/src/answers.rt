// What a case of each kind is answered by: its line.

use crate::cases::Case;
use crate::fields::{read_amounts, state_in, table_at, usize_at};
use crate::kinds::Kind;
use limits::Table;
use numbers::{byte_at, u32_at};
use printing::Line;
use shift::{Answer, State};
use std::io::Write;
use verdict::Verdict;

// The line of what is no case, or of a case whose fields have other lengths than they should.
pub(crate) fn bad(line: &mut Line<impl Write>) {
    let _ = line.write_all(b"bad\n");
}

impl Case<'_> {
    // Its line.
    pub(crate) fn answer(&mut self, line: &mut Line<impl Write>) {
        let kind = self.kind;
        if !kind.is_sized(self.a.len(), self.b.len(), self.c.len()) {
            bad(line);
            return;
        }
        let _ = write!(line, "{kind}");
        self.print(line);
        let _ = line.write_all(b"\n");
    }

    // What stands behind the word.
    fn print(&mut self, line: &mut Line<impl Write>) {
        match self.kind {
            Kind::Admit => line.number(self.table().broken_rule()),
            Kind::Step => self.step(line),
            Kind::Advance => self.advance(line),
            Kind::Read => self.read(line),
            Kind::Judge => print_verdict(line, verdict::judge(self.b)),
            Kind::Line => self.lay(line),
            Kind::Join => self.join(line),
            Kind::Write => self.write(line),
            Kind::Manual => engines::print(line, self.table(), self.b),
            Kind::Block => self.advance_block(line),
            Kind::List => listing::build(line, self.b, self.c),
            Kind::Fetch => listing::fetch(line, self.b, usize_at(self.a, 0)),
            Kind::Extend => self.extend(line),
            Kind::Text => tabling::text(line, self.b),
            Kind::Tighter => tabling::tighter(line, self.table(), table_at(self.a, 44)),
            Kind::Print => tabling::print(line, self.table()),
            Kind::Rules => tabling::rules(line, self.table()),
        }
    }

    fn table(&self) -> Table {
        table_at(self.a, 0)
    }

    fn state(&self) -> State {
        state_in(self.a)
    }

    fn step(&self, line: &mut Line<impl Write>) {
        let code = byte_at(self.a, 64);
        let amount = u32_at(self.a, 65);
        print_answer(line, self.state().step(self.table(), code, amount));
    }

    fn advance(&self, line: &mut Line<impl Write>) {
        let code = byte_at(self.a, 64);
        let middle = byte_at(self.a, 65);
        let low = byte_at(self.a, 66);
        let high = byte_at(self.a, 67);
        print_answer(
            line,
            gateway::advanced(self.state(), self.table(), code, middle, low, high),
        );
    }

    fn read(&self, line: &mut Line<impl Write>) {
        let (number, rule) = match stepfile::refused(self.b) {
            Ok(()) => (0, 0),
            Err(unread) => (unread.number(), unread.rule()),
        };
        line.number(number);
        line.number(rule);
        line.table(stepfile::table(self.b));
        line.bytes(stepfile::records(self.b));
    }

    fn lay(&mut self, line: &mut Line<impl Write>) {
        let laid = verdict::line(self.b, self.c);
        line.number(laid.map_or_else(|refusal| refusal.number(), |_| 0));
        line.number(laid.unwrap_or(0));
        line.bytes(self.c);
    }

    fn join(&mut self, line: &mut Line<impl Write>) {
        let held = usize_at(self.a, 0);
        let offset = usize_at(self.a, 8);
        let joined = transfer::join(self.c, held, offset, self.b);
        line.number(joined.map_or_else(|refusal| refusal.number(), |_| 0));
        line.number(joined.unwrap_or(held));
        line.bytes(self.c);
    }

    // The first byte is 0 for the wish for none; the amounts stand behind the table.
    fn write(&mut self, line: &mut Line<impl Write>) {
        let wish = (byte_at(self.a, 0) != 0).then(|| table_at(self.a, 1));
        // Room for those of the longest field, so that nothing is allocated for them.
        let mut room = [0; 16491];
        let amounts = &mut room[..self.a.len().saturating_sub(45) / 4];
        read_amounts(self.a, 45, amounts);
        let written = stepfile::write::write(wish, self.b, amounts, self.c);
        let (number, rule, index) = match written {
            Ok(_) => (0, 0, 0),
            Err(unwritten) => (unwritten.number(), unwritten.rule(), unwritten.index()),
        };
        line.number(number);
        line.number(rule);
        line.number(index);
        line.number(written.unwrap_or(0));
        line.bytes(self.c);
    }

    fn advance_block(&self, line: &mut Line<impl Write>) {
        let (state, table) = (self.state(), self.table());
        print_verdict(line, gateway::advanced_block(state, table, self.b));
    }

    fn extend(&mut self, line: &mut Line<impl Write>) {
        let (state, table) = (self.state(), self.table());
        let held = usize_at(self.a, 64);
        let count = u32_at(self.a, 72);
        listing::extend(line, self.c, held, state, count, table, self.b);
    }
}

fn print_answer(line: &mut Line<impl Write>, answer: Answer) {
    line.number(answer.number);
    line.number(answer.rule);
    line.number(answer.excess);
    line.state(answer.state);
}

fn print_verdict(line: &mut Line<impl Write>, verdict: Verdict) {
    line.number(verdict.number);
    line.number(verdict.rule);
    line.number(verdict.index);
    line.number(verdict.excess);
    line.state(verdict.state);
}
