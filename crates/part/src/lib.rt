// The rows of one huge frame, as a part of all that are lent: passed to the bitfield's search, its toggle and its count.
// Some are always inlined, since a Result with a number in it comes back through memory.
#![tactic(auto)]

ghost use Rattle.std.specs.Prelude.{◌≡◌, ◌+◌, ◌*◌, ◌/◌, ◌%◌, ◌^◌, ◌<◌, ◌≤◌, length};
ghost use Rattle.base.specs.Code.{out};
ghost use Rattle.base.specs.Refused.{code_of};
ghost use Rattle.base.specs.Size.{rows_per};
ghost use Rattle.bitfield_rules.specs.Calls.{first_zeros, placed_of};
ghost use Rattle.rules.specs.State.{rows_of, clear_of, toggled};

use base::{HugeOrder, Refusal};
use std::ops::Range;

// Where the rows of huge frame x lie among all.
fn rows_at(h: HugeOrder, x: usize) -> Range<usize>
    requires { (x + 1) * rows_per h.order < 2 ^ 64 }
    ensures first { result.start ≡ x * rows_per h.order }
    ensures past { result.end ≡ (x + 1) * rows_per h.order }
{
    let first = shape::huge_row(h, x);
    first..first + h.rows()
}

// Searches huge frame x for a block, without a write.
#[inline(always)]
pub fn first_zeros(
    h: HugeOrder,
    rows: &[u64],
    x: usize,
    row: usize,
    order: usize,
) -> Result<usize, Refusal>
    requires { (x + 1) * rows_per h.order ≤ length rows.now }
    ensures { placed_of result ≡ first_zeros h.order (rows_of h.order rows.now x) row order }
{
    search::first_zeros(h, &rows[rows_at(h, x)], row, order)
}

// The clear bits of huge frame x.
pub fn zeros(h: HugeOrder, rows: &[u64], x: usize) -> usize
    requires { (x + 1) * rows_per h.order ≤ length rows.now }
    ensures { result ≡ clear_of h.order rows.now x }
{
    field::count_zeros(h, &rows[rows_at(h, x)]).unwrap()
}

// Turns a block, where its bits are all as expected.
pub fn toggle(
    h: HugeOrder,
    rows: &mut [u64],
    frame: usize,
    order: usize,
    expected: bool,
) -> Result<(), Refusal>
    requires { (order ≤ h.order) × (frame < 1048576) × (frame % 2 ^ order ≡ 0) × ((frame / 2 ^ h.order + 1) * rows_per h.order ≤ length rows.old) }
    ensures { out (code_of result) rows.new ≡ toggled rows.old frame order expected }
{
    let part = &mut rows[rows_at(h, shape::frame_huge(h, frame))];
    field::toggle(h, part, shape::frame_place(h, frame), order, expected)
}
