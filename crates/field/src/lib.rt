// The rows of one huge frame, of huge order h: stores, tests and counts of their bits.
// Some are always inlined, since a Result with a number in it comes back through memory.
#![tactic(auto)]

ghost use Rattle.std.specs.Prelude.{◌≡◌};
ghost use Rattle.base.specs.Code.{out};
ghost use Rattle.base.specs.Refused.{code_of};
ghost use Rattle.bitfield_rules.specs.Calls as spec;
ghost use Rattle.bitfield_rules.specs.Calls.{count_of, answered_of};
ghost use Rattle.bitfield_rules.specs.Ensured.{Sets, Fills, CountsZeros, TellsZero, Toggles};

use base::{HugeOrder, Refusal};

// The checks of a call on the rows of a huge frame, in document 01's order.
#[inline(always)]
fn rows(h: HugeOrder, len: usize) -> Result<(), Refusal>
    ensures { code_of result ≡ spec.rows_code h.order len }
{
    if len == h.rows() {
        Ok(())
    } else {
        Err(Refusal::Lent)
    }
}

#[inline(always)]
pub fn order(h: HugeOrder, len: usize, order: usize) -> Result<(), Refusal>
    ensures { code_of result ≡ spec.order_code h.order len order }
{
    rows(h, len)?;
    if order <= h.order {
        Ok(())
    } else {
        Err(Refusal::Order)
    }
}

// The last place that a block of the order can have is also the mask of the aligned places: one test for the two.
#[inline(always)]
fn block(h: HugeOrder, len: usize, place: usize, order: usize) -> Result<(), Refusal>
    ensures { code_of result ≡ spec.block_code h.order len place order }
{
    self::order(h, len, order)?;
    let last = h.frames() - base::size(order);
    if place & last == place {
        Ok(())
    } else if last < place {
        Err(Refusal::Range)
    } else {
        Err(Refusal::Alignment)
    }
}

pub fn set(
    h: HugeOrder,
    rows: &mut [u64],
    start: usize,
    end: usize,
    value: bool,
) -> Result<(), Refusal>
    ensures { Sets h.order rows.old start end value (code_of result) rows.new }
{
    self::rows(h, rows.len())?;
    if end < start || h.frames() < end {
        return Err(Refusal::Range);
    }
    bits::write(rows, start, end, value);
    Ok(())
}

pub fn fill(h: HugeOrder, rows: &mut [u64], value: bool) -> Result<(), Refusal>
    ensures { Fills h.order rows.old value (code_of result) rows.new }
{
    self::rows(h, rows.len())?;
    bits::fill_rows(rows, bits::solid_row(value));
    Ok(())
}

pub fn count_zeros(h: HugeOrder, rows: &[u64]) -> Result<usize, Refusal>
    ensures { CountsZeros h.order rows.now (count_of result) }
{
    self::rows(h, rows.len())?;
    Ok(bits::zeros(rows))
}

pub fn is_zero(h: HugeOrder, rows: &[u64], place: usize, order: usize) -> Result<bool, Refusal>
    ensures { TellsZero h.order rows.now place order (answered_of result) }
{
    block(h, rows.len(), place, order)?;
    Ok(bits::block_is(rows, place, order, false))
}

// Turns whole rows, once all of them are seen to be as expected. A turn of the loop sees two rows, one from each end, as a loop
// over each row takes longer. Two rows at most are stored by themselves, as a loop takes longer than they do.
fn toggle_rows(rows: &mut [u64], expected: bool) -> Result<(), Refusal>
    ensures { out (code_of result) rows.new ≡ spec.turn_rows rows.old expected }
{
    let want = bits::solid_row(expected);
    let len = rows.len();
    let mut i = 0;
    let mut e = len;
    while i < e {
        e -= 1;
        if rows[i] != want || rows[e] != want {
            return Err(Refusal::Memory);
        }
        i += 1;
    }
    if 2 < len {
        bits::fill_rows(rows, !want);
    } else if 0 < len {
        rows[0] = !want;
        rows[len - 1] = !want;
    }
    Ok(())
}

pub fn toggle(
    h: HugeOrder,
    rows: &mut [u64],
    place: usize,
    order: usize,
    expected: bool,
) -> Result<(), Refusal>
    ensures { Toggles h.order rows.old place order expected (code_of result) rows.new }
{
    block(h, rows.len(), place, order)?;
    if 6 < order {
        let i = place / 64;
        let e = i + base::size(order - 6);
        return toggle_rows(&mut rows[i..e], expected);
    }
    if !bits::block_is(rows, place, order, expected) {
        return Err(Refusal::Memory);
    }
    bits::write_block(rows, place, order, !expected);
    Ok(())
}
