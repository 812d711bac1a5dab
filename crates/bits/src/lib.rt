// Runs of bits over any lent rows: are they alike, find the first of a kind, store them, count the clear ones. The bitfield
// and the lower level share these.
#![tactic(auto)]

ghost use Rattle.std.specs.Prelude.{◌≡◌, true, false, ◌+◌, ◌-◌, ◌*◌, ◌^◌, ◌<◌, ◌≤◌, eqb, length, get_or, replicate};
ghost use Rattle.base.specs.Walk.{pick, first, all, count};
ghost use Rattle.base.specs.Bits.{bits_at, solid, bit_is, block_is, overlay, with_bits};
ghost use Rattle.bits.specs.Block.{Block};

// A row with every bit set, or every bit clear.
pub fn solid_row(b: bool) -> u64
    ensures { result ≡ solid b 64 }
{
    if b { u64::MAX } else { 0 }
}

// The bits of a block within a row: size bits from place on.
fn block_mask(place: usize, size: usize) -> u64
    requires { (0 < size) × (place + size ≤ 64) }
    ensures { result ≡ (2 ^ size - 1) * 2 ^ place }
{
    (u64::MAX >> (64 - size)) << place
}

// A row in which the bits that are b are set.
fn matching(v: u64, b: bool) -> u64
    ensures { result ≡ pick b v (2 ^ 64 - 1 - v) }
{
    if b { v } else { !v }
}

// The first of a row's size bits from place on that is set, or that is clear; where there is none, their end, a number as `first` is.
fn row_first(v: u64, place: usize, size: usize, b: bool) -> usize
    requires { (place < 64) × (place + size ≤ 64) }
    ensures { result ≡ first (λ j. eqb (bits_at v j 1) (pick b 1 0)) size place }
{
    let found = place + u64::trailing_zeros(matching(v, b) >> place) as usize;
    found.min(place + size)
}

// Whether every row is x.
pub fn rows_are(rows: &[u64], x: u64) -> bool
    ensures { result ≡ all (λ i. eqb (get_or rows.now i 0) x) (length rows.now) 0 }
{
    // A loop: with std's `all` a look at a whole bitfield takes 8 per cent longer.
    for row in rows {
        if *row != x {
            return false;
        }
    }
    true
}

// Makes every row x.
pub fn fill_rows(rows: &mut [u64], x: u64)
    ensures { rows.new ≡ replicate (length rows.old) x }
{
    // A loop: with std's `fill` a toggle of a whole bitfield takes 12 per cent longer.
    for row in rows.iter_mut() {
        *row = x;
    }
}

// The number of clear bits: each row's zeros, summed.
pub fn zeros(rows: &[u64]) -> usize
    requires { length rows.now * 64 < 2 ^ 64 }
    ensures { result ≡ count (bit_is false rows.now) (length rows.now * 64) 0 }
{
    rows.iter().map(|row| row.count_zeros() as usize).sum()
}

// Whether the bits of a block are all set, or all clear.
pub fn block_is(rows: &[u64], place: usize, order: usize, b: bool) -> bool
    requires { Block rows.now place order }
    ensures { result ≡ block_is b rows.now place (2 ^ order) }
{
    let i = place / 64;
    if order <= 6 {
        let mask = block_mask(place % 64, base::size(order));
        // A choice between two tests: one test against a masked solid row makes a toggle 6 per cent slower.
        let bits = rows[i] & mask;
        return if b { bits == mask } else { bits == 0 };
    }
    let e = i + base::size(order - 6);
    rows_are(&rows[i..e], solid_row(b))
}

// The first bit of a block that is set, or that is clear; where there is none, the block's end, a number as `first` is.
pub fn block_first(rows: &[u64], place: usize, order: usize, b: bool) -> usize
    requires { (Block rows.now place order) × (place + 2 ^ order < 2 ^ 64) }
    ensures { result ≡ first (bit_is b rows.now) (2 ^ order) place }
{
    let size = base::size(order);
    let end = place + size;
    let i = place / 64;
    if order < 6 {
        return i * 64 + row_first(rows[i], place % 64, size, b);
    }
    for j in i..end / 64 {
        let found = row_first(rows[j], 0, 64, b);
        if found < 64 {
            return j * 64 + found;
        }
    }
    end
}

// Whether the bits from place on are all set.
pub fn rest_is_set(rows: &[u64], place: usize) -> bool
    requires { (place < length rows.now * 64) × (length rows.now * 64 < 2 ^ 64) }
    ensures { result ≡ block_is true rows.now place (length rows.now * 64 - place) }
{
    let i = place / 64;
    let at = place % 64;
    if rows[i] >> at != u64::MAX >> at {
        return false;
    }
    let next = i + 1;
    rows_are(&rows[next..], u64::MAX)
}

// A row with its bits from lo up to hi all set, or all clear.
fn overlay_row(v: u64, lo: usize, hi: usize, b: bool) -> u64
    requires { (lo ≤ hi) × (hi ≤ 64) }
    ensures { result ≡ overlay b v lo hi }
{
    if lo == hi {
        return v;
    }
    let mask = block_mask(lo, hi - lo);
    let on = v | mask;
    if b { on } else { on - mask }
}

// Sets or clears the bits of a block, whatever they were.
pub fn write_block(rows: &mut [u64], place: usize, order: usize, b: bool)
    requires { Block rows.old place order }
    ensures { rows.new ≡ with_bits b rows.old place (place + 2 ^ order) }
{
    let i = place / 64;
    if order <= 6 {
        let at = place % 64;
        rows[i] = overlay_row(rows[i], at, at + base::size(order), b);
        return;
    }
    let e = i + base::size(order - 6);
    fill_rows(&mut rows[i..e], solid_row(b));
}

// Sets or clears the bits from start up to end, whatever they were.
pub fn write(rows: &mut [u64], start: usize, end: usize, b: bool)
    requires { start ≤ end }
    ensures { rows.new ≡ with_bits b rows.old start end }
{
    let mut a = start;
    let mut e = end;
    for row in rows.iter_mut() {
        let lo = a.min(64);
        let hi = e.min(64);
        *row = overlay_row(*row, lo, hi, b);
        a -= lo;
        e -= hi;
    }
}
