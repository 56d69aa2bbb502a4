// Writes bytes, numbers and lines behind one another into a buffer. Internal: the caller has seen that they fit. Each answers the place
// behind what it wrote.
ghost use Rattle.std.specs.Prelude.{[], ◌∷◌};
ghost use Rattle.panel_lines.specs.Text.{decimal, spaced, field, line, head_line, step_line, last_line};
ghost use Rattle.questions.specs.Questions.{step_of};
ghost use Rattle.questions.specs.Put.{Fits, Put};

use items::item::{FactId, RuleId};

// One byte.
fn put(out: &mut [u8], at: usize, byte: u8) -> usize
    requires { Fits (byte ∷ []) at out.old }
    ensures { Put (byte ∷ []) at out.old result out.new }
{
    out[at] = byte;
    at + 1
}

// A number in decimal digits.
fn put_number(out: &mut [u8], at: usize, n: u16) -> usize
    requires { Fits (decimal n) at out.old }
    ensures { Put (decimal n) at out.old result out.new }
{
    if n < 10 {
        put(out, at, b'0' + n as u8)
    } else {
        let last = put_number(out, at, n / 10);
        put(out, last, b'0' + (n % 10) as u8)
    }
}

// A space and a number.
fn put_spaced(out: &mut [u8], at: usize, n: u16) -> usize
    requires { Fits (spaced n) at out.old }
    ensures { Put (spaced n) at out.old result out.new }
{
    let digits = put(out, at, b' ');
    put_number(out, digits, n)
}

// A letter, a space and a number.
fn put_field(out: &mut [u8], at: usize, letter: u8, n: u16) -> usize
    requires { Fits (field letter n) at out.old }
    ensures { Put (field letter n) at out.old result out.new }
{
    let rest = put(out, at, letter);
    put_spaced(out, rest, n)
}

// A line of a letter and a number.
pub fn put_line(out: &mut [u8], at: usize, letter: u8, n: u16) -> usize
    requires { Fits (line letter n) at out.old }
    ensures { Put (line letter n) at out.old result out.new }
{
    let end = put_field(out, at, letter, n);
    put(out, end, b'\n')
}

// The line of the counts.
pub fn put_head(out: &mut [u8], at: usize, facts: u16, rules: u16, stages: u16) -> usize
    requires { Fits (head_line facts rules stages) at out.old }
    ensures { Put (head_line facts rules stages) at out.old result out.new }
{
    let end = put_field(out, at, b'F', facts);
    let next = put(out, end, b' ');
    let end = put_field(out, next, b'R', rules);
    let next = put(out, end, b' ');
    put_line(out, next, b'S', stages)
}

// The line of a step.
pub fn put_step(out: &mut [u8], at: usize, fact: FactId, rule: RuleId) -> usize
    requires { Fits (step_line (step_of fact rule)) at out.old }
    ensures { Put (step_line (step_of fact rule)) at out.old result out.new }
{
    let next = put_field(out, at, b'D', fact.0);
    let end = put_spaced(out, next, rule.0);
    put(out, end, b'\n')
}

// The last line.
pub fn put_last(out: &mut [u8], at: usize, none_aside: bool) -> usize
    requires { Fits (last_line none_aside) at out.old }
    ensures { Put (last_line none_aside) at out.old result out.new }
{
    let letter = if none_aside { b'Y' } else { b'N' };
    let end = put(out, at, letter);
    put(out, end, b'\n')
}
