// The bitfield of one huge frame: document 01's calls on its eight rows. Each takes any numbers and any contents of the rows, and is
// the routine of `field` or `search` at huge order 9.
#![tactic(auto)]

ghost use Rattle.base.specs.Refused.{code_of};
ghost use Rattle.base.specs.Size.{huge_order};
ghost use Rattle.bitfield_rules.specs.Calls.{placed_of, count_of, answered_of};
ghost use Rattle.bitfield_rules.specs.Ensured.{Sets, Toggles, TellsZero, FindsZeros, SetsFirstZeros, Fills, CountsZeros};

use base::Refusal;

// Overwrites the bits from start up to end.
pub fn set(rows: &mut [u64], start: usize, end: usize, value: bool) -> Result<(), Refusal>
    ensures { Sets huge_order rows.old start end value (code_of result) rows.new }
{
    field::set(base::HUGE_ORDER, rows, start, end, value)
}

// Turns the bits of a block, where all are as expected.
pub fn toggle(rows: &mut [u64], place: usize, order: usize, expected: bool) -> Result<(), Refusal>
    ensures { Toggles huge_order rows.old place order expected (code_of result) rows.new }
{
    field::toggle(base::HUGE_ORDER, rows, place, order, expected)
}

// Whether the bits of a block are all clear.
pub fn is_zero(rows: &[u64], place: usize, order: usize) -> Result<bool, Refusal>
    ensures { TellsZero huge_order rows.now place order (answered_of result) }
{
    field::is_zero(base::HUGE_ORDER, rows, place, order)
}

// The first clear block in the search order, with nothing written.
pub fn first_zeros(rows: &[u64], start_row: usize, order: usize) -> Result<usize, Refusal>
    ensures { FindsZeros huge_order rows.now start_row order (placed_of result) }
{
    search::first_zeros(base::HUGE_ORDER, rows, start_row, order)
}

// Sets the first clear block in the search order.
pub fn set_first_zeros(rows: &mut [u64], start_row: usize, order: usize) -> Result<usize, Refusal>
    ensures { SetsFirstZeros huge_order rows.old start_row order (placed_of result) rows.new }
{
    search::set_first_zeros(base::HUGE_ORDER, rows, start_row, order)
}

// Overwrites every bit.
pub fn fill(rows: &mut [u64], value: bool) -> Result<(), Refusal>
    ensures { Fills huge_order rows.old value (code_of result) rows.new }
{
    field::fill(base::HUGE_ORDER, rows, value)
}

// The number of clear bits.
pub fn count_zeros(rows: &[u64]) -> Result<usize, Refusal>
    ensures { CountsZeros huge_order rows.now (count_of result) }
{
    field::count_zeros(base::HUGE_ORDER, rows)
}
