// One record of four bytes at a time, or a block of them, on a state that is kept between them.
#![tactic(auto)]

ghost use Rattle.std.specs.Prelude.{◌≡◌};
ghost use Rattle.gateway.specs.Advancing.{advanced_on, block_on};

use limits::Table;
use shift::{Answer, State};
use verdict::Verdict;

// The answer to a record's four bytes on any state and table: 4 with the rule, then 5, 6, 7 and so on. They are four numbers, as
// munasirel_advance is called.
pub fn advanced(state: State, table: Table, code: u8, middle: u8, low: u8, high: u8) -> Answer
    ensures { result ≡ advanced_on table state code middle low high }
{
    // A block of one record, written out: a function that both calls for C share would not be laid into them (docs/DECISIONS.md).
    let record: [u8; 4] = [code, middle, low, high];
    if let Err(broken) = table.admit() {
        return Answer {
            number: 4,
            rule: broken.number(),
            excess: 0,
            state,
        };
    }
    let verdict = verdict::judge_records(state, table, &record);
    let state = verdict.state;
    // Field by field: an answer is no verdict, which has an index besides.
    Answer {
        number: verdict.number,
        rule: verdict.rule,
        excess: verdict.excess,
        state,
    }
}

// The verdict on a block of records, on any state and table: what its records are answered one by one, the table tested once. What is
// left over behind them is no record.
pub fn advanced_block(state: State, table: Table, records: &[u8]) -> Verdict
    ensures { result ≡ block_on table state records.now }
{
    if let Err(rule) = table.admit() {
        if records.len() < 4 {
            return Verdict {
                number: 0,
                rule: 0,
                index: 0,
                excess: 0,
                state,
            };
        }
        return Verdict {
            number: 4,
            rule: rule.number(),
            index: 0,
            excess: 0,
            state,
        };
    }
    verdict::judge_records(state, table, records)
}
