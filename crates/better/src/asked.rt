// The questions of the operations on two orders. Internal.
ghost use Rattle.std.specs.Prelude.{◌≡◌};
ghost use Rattle.reader.specs.BodyScanned.{Cleared};
ghost use Rattle.reader.specs.Scanned.{Scanned};
ghost use Rattle.questions.specs.Answer.{answer_of};
ghost use Rattle.questions.specs.Questions.{better_no};

use items::refusal::Refusal;
use naming::order::ask_order_of;
use tables::layout::Tables;

// The questions of the file, whose program is left in the tables, then 11 to 14 of the first order, then of the second.
pub fn ask_both(
    file: &[u8],
    first: &[u8],
    second: &[u8],
    tables: &mut Tables,
) -> Result<(), Refusal>
    requires { Cleared tables.old.cells }
    ensures value { result ≡ answer_of (better_no file.now first.now second.now) }
    ensures scanned { Scanned file.now tables.new.cells }
{
    reader::scan::scan(file, tables)?;
    ask_order_of(tables, first)?;
    ask_order_of(tables, second)
}
