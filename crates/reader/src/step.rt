// One item of the body of a file: its questions in their order, then what is stored of it. Internal: `cells` and `marks` are those of the scan.
ghost use Rattle.std.specs.Prelude.{ℕ, ◌≡◌, List, length};
ghost use Rattle.items.specs.declared.item.Item.TheVariants.{Opens, Premise, Constraint, Rules};
ghost use Rattle.reader.specs.Scanning.{none_allowed, late_no, Late, Room, Scans};

use cursors::cursor::Cursor;
use items::item::{FactId, Item, MAX_FACTS, MAX_RULE_ITEMS, MAX_RULES};
use items::refusal::Refusal;
use tables::layout::{LAST_CELL, OWN, TABLE_CELLS};

// What the scan has read so far: the rules opened; `allowance`, how many premises and constraints more the rule last opened may have, and 0 before one
// is opened; the premises and the constraints of all rules, `filled` and `barred` places of their rows; the exception rules; `plain` is 1 while the rule
// last opened has no constraint.
#[derive(Clone, Copy, Default)]
pub struct Progress {
    pub rules: usize,
    pub allowance: usize,
    pub filled: usize,
    pub barred: usize,
    pub exceptions: u16,
    // A number, since it is added to that count.
    pub plain: u16,
}

// Questions 7 and 51, of a premise or a constraint where none is allowed: one test of each such item asks both.
fn none_allowed(rules: usize) -> Refusal
    ensures { result ≡ none_allowed rules }
{
    if rules == 0 {
        Refusal::NoRuleOpened
    } else {
        Refusal::RuleTooLong
    }
}

fn open_rule(
    f: FactId,
    next: Cursor,
    facts: u16,
    before: Progress,
    cells: &mut [u16; TABLE_CELLS],
) -> Result<Option<Progress>, Refusal>
    requires { Room facts next before }
    ensures { (s marks : List ℕ) → Scans facts s (Opens f) next before cells.old marks cells.new marks result }
{
    if facts <= f.0 {
        return Err(Refusal::FactTooHigh);
    }
    if MAX_RULES <= before.rules {
        return Err(Refusal::TooManyRules);
    }
    stores::store_rule(
        cells,
        before.rules,
        f.0,
        next.at,
        before.filled,
        before.barred,
    );
    Ok(Some(Progress {
        rules: before.rules + 1,
        allowance: MAX_RULE_ITEMS,
        plain: 1,
        ..before
    }))
}

fn take_premise(
    f: FactId,
    next: Cursor,
    facts: u16,
    before: Progress,
    cells: &mut [u16; TABLE_CELLS],
) -> Result<Option<Progress>, Refusal>
    requires { Room facts next before }
    ensures { (s marks : List ℕ) → Scans facts s (Premise f) next before cells.old marks cells.new marks result }
{
    if facts <= f.0 {
        return Err(Refusal::FactTooHigh);
    }
    if before.allowance == 0 {
        return Err(none_allowed(before.rules));
    }
    cells[OWN + before.filled] = f.0;
    Ok(Some(Progress {
        allowance: before.allowance - 1,
        filled: before.filled + 1,
        ..before
    }))
}

fn take_constraint(
    f: FactId,
    next: Cursor,
    facts: u16,
    before: Progress,
    cells: &mut [u16; TABLE_CELLS],
    marks: &mut [u8; MAX_FACTS],
) -> Result<Option<Progress>, Refusal>
    requires { Room facts next before }
    ensures { (s : List ℕ) → Scans facts s (Constraint f) next before cells.old marks.old cells.new marks.new result }
{
    if facts <= f.0 {
        return Err(Refusal::FactTooHigh);
    }
    if before.allowance == 0 {
        return Err(none_allowed(before.rules));
    }
    cells[LAST_CELL - before.barred] = f.0;
    stores::mark_constraint(cells, marks, before.rules, f.0);
    Ok(Some(Progress {
        allowance: before.allowance - 1,
        barred: before.barred + 1,
        exceptions: before.exceptions + before.plain,
        plain: 0,
        ..before
    }))
}

// Questions 6 and 56, of an unread fact that is too high or follows a rule: the others are taken before the first rule.
fn refuse_unread(f: FactId, facts: u16) -> Refusal
    ensures { result ≡ late_no facts f }
{
    if facts <= f.0 {
        Refusal::FactTooHigh
    } else {
        Refusal::UnreadAfterRule
    }
}

// `end` is the length of the file.
fn end_file(
    n: u16,
    next: Cursor,
    end: usize,
    facts: u16,
    before: Progress,
    cells: &mut [u16; TABLE_CELLS],
) -> Result<Option<Progress>, Refusal>
    requires { Room facts next before }
    ensures { (s marks : List ℕ) → length s ≡ end → Scans facts s (Rules n) next before cells.old marks cells.new marks result }
{
    if n as usize != before.rules {
        return Err(Refusal::WrongRuleCount);
    }
    if next.at < end {
        return Err(Refusal::BytesAfterEnd);
    }
    stores::store_counts(cells, facts, n, before.filled, before.barred);
    Ok(None)
}

// An item that ends where `next` stands, in a file of so many facts and bytes. Answers what the scan has read then, or None where the file ends as it should.
pub fn scan_item(
    item: Item,
    next: Cursor,
    end: usize,
    facts: u16,
    before: Progress,
    cells: &mut [u16; TABLE_CELLS],
    marks: &mut [u8; MAX_FACTS],
) -> Result<Option<Progress>, Refusal>
    requires { Room facts next before }
    ensures { (s : List ℕ) → length s ≡ end → Late facts item before → Scans facts s item next before cells.old marks.old cells.new marks.new result }
{
    match item {
        Item::Opens(f) => open_rule(f, next, facts, before, cells),
        Item::Premise(f) => take_premise(f, next, facts, before, cells),
        Item::Constraint(f) => take_constraint(f, next, facts, before, cells, marks),
        Item::Rules(n) => end_file(n, next, end, facts, before, cells),
        Item::Unread(f) => Err(refuse_unread(f, facts)),
        _ => Err(Refusal::UnknownKind),
    }
}
