// The ascending order of a file's exception rules. Internal.
ghost use Rattle.tables.specs.Held.{held};
ghost use Rattle.questions.specs.Questions.{naming};
ghost use Rattle.questions.specs.Put.{Fits, Put};
ghost use Rattle.panel_lines.specs.Text.{ascending};

use items::item::MAX_RULES;
use tables::layout::Tables;

// The mark of a rule that is not plain. A number and no enum: the marks are in the form of a set of facts, 1 in and 0 out.
const NOT_PLAIN: u8 = 0;

// The order of a program. Answers its length.
pub fn put_order(tables: &Tables, out: &mut [u8]) -> usize
    requires fits { Fits (naming (ascending (held tables.now))) 0 out.old }
    ensures { Put (naming (ascending (held tables.now))) 0 out.old result out.new }
{
    let mut marks = [0u8; MAX_RULES];
    marking::marks::mark_plain(tables, &mut marks);
    naming::write::write_names(&marks, NOT_PLAIN, tables.rules(), out, 0)
}
