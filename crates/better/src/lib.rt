// The better of two orders: the one that sets aside fewer rules.

#![tactic(auto)]

ghost use Rattle.std.specs.Prelude.{◌≡◌};
ghost use Rattle.items.specs.Question.{no_number};
ghost use Rattle.questions.specs.Questions.{better_no};
ghost use Rattle.better.specs.Outcome.{choice_of, ChoiceMeans, better_of, HandedBack};

pub mod answer;
mod aside;
mod asked;

use answer::Choice;
use items::refusal::Refusal;
use tables::layout::Tables;

// Which of two orders sets aside fewer rules in the run of a file, the first where they are equal, or the first no.
pub fn choose(file: &[u8], first: &[u8], second: &[u8]) -> Result<Choice, Refusal>
    ensures value { result ≡ choice_of file.now first.now second.now }
    ensures choice_means { ChoiceMeans file.now first.now second.now result }
{
    let mut tables = Tables::empty();
    asked::ask_both(file, first, second, &mut tables)?;
    Ok(aside::choose_tabled(&tables, first, second))
}

// Hands back that order, as it was lent; an empty part of the first where a question gets no.
pub fn better<'a>(file: &[u8], first: &'a [u8], second: &'a [u8]) -> &'a [u8]
    ensures result_value { result.now ≡ better_of file.now first.now second.now }
    ensures handed_back { HandedBack (choice_of file.now first.now second.now) first.entry second.entry result }
{
    match choose(file, first, second) {
        Ok(Choice::First) => first,
        Ok(Choice::Second) => second,
        Err(_) => &first[..0],
    }
}

// The number of the first no, 0 where there is none. The orders are questioned and not run. A number and no Result: it is what `no_number` says of the questions, and callers
// compare it with the numbers of the request.
pub fn better_number(file: &[u8], first: &[u8], second: &[u8]) -> u32
    ensures { result ≡ no_number (better_no file.now first.now second.now) }
{
    let mut tables = Tables::empty();
    match asked::ask_both(file, first, second, &mut tables) {
        Err(r) => u32::from(r.number()),
        Ok(()) => 0,
    }
}
