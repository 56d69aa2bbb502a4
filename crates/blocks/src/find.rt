// The blocks of guesses, one after another. Internal.
ghost use Rattle.std.specs.Prelude.{◌≤◌, ◌<◌, ◌^◌, ◌*◌, ◌≡◌, true, ltb};
ghost use Rattle.theory.specs.Rule.{all, nothing};
ghost use Rattle.items.specs.Item.{narrow, max_facts, max_guessed};
ghost use Rattle.tables.specs.Held.{held};
ghost use Rattle.bits.specs.Flags.{Flags};
ghost use Rattle.premises.specs.Premises.{in_row, Asked, ripe};
ghost use Rattle.nogoods.specs.Nogoods.{guesses, Passed};
ghost use Rattle.lanes.specs.Lanes.{lane_count, blocks};
ghost use Rattle.guessing.specs.Guessing.{RowBase, fits_at};
ghost use Rattle.blocks.specs.Order.{InOrder};
ghost use Rattle.blocks.specs.Find.{Tried, PassedTo, FoundBefore, Found};

use crate::order::order_rules;
use crate::settle::settle;
use bits::matrix::MATRIX_WORDS;
use bits::row::ROW_WORDS;
use index::cells::LITERALS;
use items::item::{MAX_FACTS, MAX_RULES};
use lanes::fit::{first_fit, mark_lane};
use lanes::hold::{hold_base, hold_block};
use lanes::words::{LANE_CELLS, LANES};
use premises::fill::index_row;
use tables::layout::Tables;

// Settles the lanes of a block, whose guesses are held out: the marks of what the first one that fits derives, if there is one.
fn try_block(
    tables: &Tables,
    row: &[u16],
    order: &[u16],
    asks: &[u64; MATRIX_WORDS],
    awake: &[u64; ROW_WORDS],
    outs: &[u64; LANE_CELLS],
) -> Option<[u8; MAX_FACTS]>
    requires in_order { InOrder (held tables.now) order.now × Asked (held tables.now) (in_row order.now) asks.now × Flags (ripe (held tables.now) (in_row order.now) nothing) awake.now }
    requires row_value { all (λ k. ltb k (max_facts narrow)) row.now ≡ true }
    ensures { Tried (held tables.now) row.now outs.now result }
{
    let mut derived = [0u64; LANE_CELLS];
    settle(tables, order, asks, awake, outs, &mut derived);
    let lane = first_fit(row, &derived, outs)?;
    Some(mark_lane(&derived, lane))
}

// How many blocks the guesses over a row have.
fn count_blocks(places: usize) -> usize
    requires { places ≤ max_guessed }
    ensures { (result ≤ blocks) × (2 ^ places ≤ result * lane_count) }
{
    (1usize << places).div_ceil(LANES)
}

// Looks in the blocks from one up to another for the first guess that fits: the marks of what it derives, if there is one. No guess before these blocks fits.
fn find_between(
    tables: &Tables,
    row: &[u16],
    base: &[u8; LITERALS],
    begin: usize,
    end: usize,
) -> Option<[u8; MAX_FACTS]>
    requires row_base { RowBase (held tables.now) row.now base.now }
    requires end_le_blocks { (end ≤ blocks) × PassedTo (held tables.now) row.now base.now begin }
    ensures { FoundBefore (held tables.now) row.now base.now end result }
{
    let mut order = [0u16; MAX_RULES];
    let names = order_rules(tables, &mut order);
    let order = &order[..names];
    let mut asks = [0u64; MATRIX_WORDS];
    let mut missing = [0u16; MAX_RULES];
    let mut awake = [0u64; ROW_WORDS];
    index_row(tables, order, &mut asks, &mut missing, &mut awake);
    let mut outs = [0u64; LANE_CELLS];
    hold_base(base, &mut outs);
    for block in begin..end {
        hold_block(row, block, &mut outs);
        if let Some(found) = try_block(tables, row, order, &asks, &awake, &outs) {
            return Some(found);
        }
    }
    None
}

// Looks from a guess on for the first that fits: the marks of what it derives, if there is one. No guess before it fits. The blocks are looked through in two
// parts: the compiler puts a function that is called once into its caller's frame, and the words would still take their place there while the run works.
pub fn find(
    tables: &Tables,
    row: &[u16],
    base: &[u8; LITERALS],
    from: u32,
) -> Option<[u8; MAX_FACTS]>
    requires row_base { RowBase (held tables.now) row.now base.now }
    requires from_le_guesses { (from ≤ guesses) × Passed (fits_at (held tables.now) row.now base.now) 0 from }
    ensures { Found (held tables.now) row.now base.now result }
{
    let end = count_blocks(row.len());
    let begin = from as usize / LANES;
    let middle = (begin + end) / 2;
    if let Some(found) = find_between(tables, row, base, begin, middle) {
        return Some(found);
    }
    find_between(tables, row, base, middle, end)
}
