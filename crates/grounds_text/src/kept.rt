// The text for a fact, into a buffer that is large enough. Internal.
ghost use Rattle.std.specs.Prelude.{◌≤◌, length};
ghost use Rattle.items.specs.Item.{narrow};
ghost use Rattle.tables.specs.Held.{held};
ghost use Rattle.questions.specs.Put.{Put};
ghost use Rattle.grounds_text.specs.Text.{grounds_text, lines_room};
ghost use Rattle.grounds_text.specs.Tabled.{program_text};

use items::item::{MAX_FACTS, MAX_RULES};
use items::lengths::{NAME_WIDTH, STEP_WIDTH};
use panel_lines::put::put_line;
use panel_text::lines::put_steps;
use panel_text::order::put_order;
use panel_text::text::MOST_STEP;
use tables::layout::Tables;

// Every text has room in so many bytes: a step for each fact.
pub const LINES_ROOM: usize = MAX_FACTS * MOST_STEP;

// The text by the tables of an accepted file. The order gets yes to its questions and the buffers are large enough, so the only no is that the fact
// was not derived.
fn put_kept(tables: &Tables, fact: u32, out: &mut [u8]) -> usize
    requires narrow_in_bounds { lines_room narrow ≤ length out.old }
    ensures { Put (program_text (held tables.now) fact) 0 out.old result out.new }
{
    let mut order = [0u8; MAX_RULES * NAME_WIDTH];
    let named = put_order(tables, &mut order);
    let mut fact_marks = [0u8; MAX_FACTS];
    let mut rule_marks = [0u8; MAX_RULES];
    let mut steps = [0u8; MAX_FACTS * STEP_WIDTH];
    match keeping::tabled::grounds_tabled(
        tables,
        &order[..named],
        fact,
        &mut fact_marks,
        &mut rule_marks,
        &mut steps,
    ) {
        Err(r) => put_line(out, 0, b'E', u16::from(r.number())),
        Ok(taken) => {
            let used = usize::from(taken) * STEP_WIDTH;
            put_steps(out, 0, &steps[..used])
        }
    }
}

// The text for a fact by a file. Answers its length. The panel asks its file alike: one function for both would take a closure with a contract in place of these lines.
pub fn put_text(file: &[u8], fact: u32, out: &mut [u8]) -> usize
    requires { lines_room narrow ≤ length out.old }
    ensures put { Put (grounds_text file.now fact) 0 out.old result out.new }
    ensures upper_bound { result ≤ lines_room narrow }
{
    let mut tables = Tables::empty();
    match reader::scan::scan(file, &mut tables) {
        Err(r) => put_line(out, 0, b'E', u16::from(r.number())),
        Ok(_) => put_kept(&tables, fact, out),
    }
}
