// The lines of a run, by the marks and the steps that it leaves. Internal.
ghost use Rattle.std.specs.Prelude.{◌≤◌, length};
ghost use Rattle.items.specs.Item.{max_rules};
ghost use Rattle.questions.specs.Questions.{each, row_of};
ghost use Rattle.theory.specs.Places.{places_marked};
ghost use Rattle.panel_lines.specs.Text.{line, step_line};
ghost use Rattle.panel_text.specs.Left.{left_text};
ghost use Rattle.questions.specs.Put.{Fits, Put};

use cursors::cursor::{Cursor, Read, Row};
use items::item::Item;
use panel_lines::put::{put_head, put_last, put_line, put_step};

// The fact mark of a fact in R, and the rule mark of a rule set aside. Numbers and no enum: the run hands its marks out as bytes, in the request's numbers.
const IN_R: u8 = 2;

const SET_ASIDE: u8 = 2;

// A line for each step of a row.
pub fn put_steps(out: &mut [u8], from: usize, row: &[u8]) -> usize
    requires { Fits (each step_line (row_of row.now)) from out.old }
    ensures { Put (each step_line (row_of row.now)) from out.old result out.new }
{
    let mut at = from;
    let mut cursor = Cursor::start(Row::Steps);
    while let Read::Found(item, next) = cursor.next_step(row) {
        if let Item::Step(fact, rule) = item {
            at = put_step(out, at, fact, rule);
        }
        cursor = next;
    }
    at
}

// A line of a letter for each number that has the mark, ascending.
fn put_marked(out: &mut [u8], from: usize, letter: u8, marks: &[u8], mark: u8) -> usize
    requires few_marks { length marks.now ≤ max_rules }
    requires fits { Fits (each (line letter) (places_marked mark marks.now (length marks.now))) from out.old }
    ensures { Put (each (line letter) (places_marked mark marks.now (length marks.now))) from out.old result out.new }
{
    let mut at = from;
    for (i, &own) in marks.iter().enumerate() {
        if own == mark {
            at = put_line(out, at, letter, i as u16);
        }
    }
    at
}

// All lines, by the marks of the facts and of the rules. A line A was written exactly where the place has moved.
pub fn put_left(
    out: &mut [u8],
    stages: u16,
    fact_marks: &[u8],
    rule_marks: &[u8],
    row: &[u8],
) -> usize
    requires few_marks { (length fact_marks.now ≤ max_rules) × (length rule_marks.now ≤ max_rules) }
    requires fits { Fits (left_text stages fact_marks.now rule_marks.now row.now) 0 out.old }
    ensures { Put (left_text stages fact_marks.now rule_marks.now row.now) 0 out.old result out.new }
{
    let facts = fact_marks.len() as u16;
    let rules = rule_marks.len() as u16;
    let at = put_head(out, 0, facts, rules, stages);
    let at = put_steps(out, at, row);
    let at = put_marked(out, at, b'X', fact_marks, IN_R);
    let end = put_marked(out, at, b'A', rule_marks, SET_ASIDE);
    put_last(out, end, end == at)
}
