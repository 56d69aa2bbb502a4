// The text for a file, into a buffer that is large enough. Internal.
ghost use Rattle.std.specs.Prelude.{◌≤◌, ◌≡◌, length};
ghost use Rattle.theory.specs.Rule.{in_force};
ghost use Rattle.theory.specs.Run.{run as run_of};
ghost use Rattle.items.specs.Item.{narrow};
ghost use Rattle.tables.specs.Held.{held};
ghost use Rattle.panel_lines.specs.Text.{ascending, run_text, panel_text, shown, text_room};
ghost use Rattle.questions.specs.Put.{Put};

use crate::lines::put_left;
use crate::order::put_order;
use items::item::{MAX_FACTS, MAX_RULES};
use items::lengths::{NAME_WIDTH, STEP_WIDTH};
use panel_lines::put::put_line;
use run::stages::run_tabled;
use tables::layout::Tables;

// The most digits of a number in a line.
const MOST_DIGITS: usize = 3;

// The most bytes of a space and a number, of these behind a letter, and of each line.
const MOST_SPACED: usize = 1 + MOST_DIGITS;

const MOST_FIELD: usize = 1 + MOST_SPACED;

const MOST_LINE: usize = MOST_FIELD + 1;

pub const MOST_STEP: usize = MOST_FIELD + MOST_SPACED + 1;

const MOST_HEAD: usize = 3 * (MOST_FIELD + 1);

const LAST_LENGTH: usize = 2;

// Every text has room in so many bytes: a step and an X for each fact, an A for each rule, and the first and the last line.
pub const TEXT_ROOM: usize = MOST_HEAD
    + MAX_FACTS * MOST_STEP
    + MAX_FACTS * MOST_LINE
    + MAX_RULES * MOST_LINE
    + LAST_LENGTH;

// The lines of the run in ascending order, by the tables of an accepted file. The order names exception rules alone and the buffers are large enough, so nothing is
// refused.
fn put_run(tables: &Tables, out: &mut [u8]) -> usize
    requires narrow_in_bounds { text_room narrow ≤ length out.old }
    ensures { Put (run_text (held tables.now) (run_of (held tables.now) (in_force (held tables.now)) (ascending (held tables.now)))) 0 out.old result out.new }
{
    let mut order = [0u8; MAX_RULES * NAME_WIDTH];
    let named = put_order(tables, &mut order);
    let mut fact_marks = [0u8; MAX_FACTS];
    let mut rule_marks = [0u8; MAX_RULES];
    let mut steps = [0u8; MAX_FACTS * STEP_WIDTH];
    let ran = run_tabled(
        tables,
        &order[..named],
        &mut fact_marks,
        &mut rule_marks,
        &mut steps,
    );
    let facts = tables.facts();
    let rules = tables.rules();
    let used = usize::from(ran.steps) * STEP_WIDTH;
    put_left(
        out,
        ran.stages,
        &fact_marks[..facts],
        &rule_marks[..rules],
        &steps[..used],
    )
}

// The text for a file. Answers its length.
pub fn put_text(file: &[u8], out: &mut [u8]) -> usize
    requires { text_room narrow ≤ length out.old }
    ensures put { Put (panel_text file.now) 0 out.old result out.new }
    ensures upper_bound { result ≤ text_room narrow }
{
    let mut tables = Tables::empty();
    match reader::scan::scan(file, &mut tables) {
        Err(r) => put_line(out, 0, b'E', u16::from(r.number())),
        Ok(_) => put_run(&tables, out),
    }
}

// Copies a text to the front of a buffer exactly where it fits. Answers its length.
pub fn show(text: &[u8], out: &mut [u8]) -> usize
    ensures { (result ≡ length text.now) × (out.new ≡ shown text.now out.old) }
{
    let n = text.len();
    if n <= out.len() {
        out[..n].copy_from_slice(text);
    }
    n
}
