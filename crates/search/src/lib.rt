// The search of one huge frame, of huge order h: the first clear block in the stated order.
// Some are always inlined, since a Result with a number in it comes back through memory.
#![tactic(auto)]

ghost use Rattle.std.specs.Prelude.{◌≡◌, ◌<◌, ◌≤◌, length};
ghost use Rattle.std.specs.Option.{ok_or};
ghost use Rattle.base.specs.Size.{rows_per};
ghost use Rattle.base.specs.declared.Refusal.TheVariants.{Memory};
ghost use Rattle.bitfield_rules.specs.Calls.{placed_of};
ghost use Rattle.bitfield_rules.specs.Ensured.{FindsZeros, SetsFirstZeros};

use base::{HugeOrder, Refusal};

// The first clear block of the rows from row start on, wrapping by a mask. No block is None, which comes back in a register.
fn find_in_rows(h: HugeOrder, rows: &[u64], start: usize, order: usize) -> Option<usize>
    requires { (length rows.now ≡ rows_per h.order) × (start < rows_per h.order) × (order ≤ 6) }
    ensures { FindsZeros h.order rows.now start order (placed_of (ok_or result Memory)) }
{
    let count = h.rows();
    for passed in 0..count {
        let i = (start + passed) & (count - 1);
        let place = row::lowest_clear(rows[i], order);
        if place < 64 {
            return Some(i * 64 + place as usize);
        }
    }
    None
}

// The first clear group of rows from the one that holds row start on. One mask rounds down to a group's first row and wraps.
fn find_group(h: HugeOrder, rows: &[u64], start: usize, order: usize) -> Option<usize>
    requires { (length rows.now ≡ rows_per h.order) × (start < rows_per h.order) × (6 < order) × (order ≤ h.order) }
    ensures { FindsZeros h.order rows.now start order (placed_of (ok_or result Memory)) }
{
    let count = h.rows();
    let group = base::size(order - 6);
    let end = start + count;
    let mut row = start;
    // A loop by hand: with `step_by` a search that finds nothing takes an eighth longer, and with a count of groups a get takes more
    // stack.
    while row < end {
        let place = (row & (count - group)) * 64;
        if bits::block_is(rows, place, order, false) {
            return Some(place);
        }
        row += group;
    }
    None
}

// The first clear block at any order. To order 6 each gets a loop of its own, as the compiler is given it as a number.
fn find_by_order(h: HugeOrder, rows: &[u64], start: usize, order: usize) -> Option<usize>
    requires { (length rows.now ≡ rows_per h.order) × (start < rows_per h.order) × (order ≤ h.order) }
    ensures { FindsZeros h.order rows.now start order (placed_of (ok_or result Memory)) }
{
    if 6 < order {
        return find_group(h, rows, start, order);
    }
    match order {
        0 => find_in_rows(h, rows, start, 0),
        1 => find_in_rows(h, rows, start, 1),
        2 => find_in_rows(h, rows, start, 2),
        3 => find_in_rows(h, rows, start, 3),
        4 => find_in_rows(h, rows, start, 4),
        5 => find_in_rows(h, rows, start, 5),
        _ => find_in_rows(h, rows, start, 6),
    }
}

#[inline(always)]
pub fn first_zeros(
    h: HugeOrder,
    rows: &[u64],
    start_row: usize,
    order: usize,
) -> Result<usize, Refusal>
    ensures { FindsZeros h.order rows.now start_row order (placed_of result) }
{
    field::order(h, rows.len(), order)?;
    let start = start_row & (h.rows() - 1);
    find_by_order(h, rows, start, order).ok_or(Refusal::Memory)
}

#[inline(always)]
pub fn set_first_zeros(
    h: HugeOrder,
    rows: &mut [u64],
    start_row: usize,
    order: usize,
) -> Result<usize, Refusal>
    ensures { SetsFirstZeros h.order rows.old start_row order (placed_of result) rows.new }
{
    let place = first_zeros(h, rows, start_row, order)?;
    bits::write_block(rows, place, order, true);
    Ok(place)
}
