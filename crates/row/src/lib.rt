// The search of one row: 64 frames, a set bit is a held frame.
#![tactic(auto)]

ghost use Rattle.std.specs.Prelude.{◌≡◌, ℕ, ◌+◌, ◌-◌, ◌*◌, ◌^◌, ◌<◌, ◌≤◌};
ghost use Rattle.row.specs.Row.{lowest, units};
ghost use Rattle.row.specs.Ensured.{FindsInRow};

use base::Refusal;

// A clear block of a row.
#[derive(Clone, Copy)]
pub struct Found {
    pub place: usize,
    // The row with the block's bits set.
    pub row: u64,
}

// The lowest clear bit, 64 where there is none: the trailing ones of v.
fn clear_bit(v: u64) -> u32
    ensures { result ≡ lowest 0 v }
{
    (!v).trailing_zeros()
}

// The lowest clear pair of bits at an even place.
fn clear_pair(v: u64) -> u32
    ensures { result ≡ lowest 1 v }
{
    (!(v | (v >> 1) | 0xaaaa_aaaa_aaaa_aaaa)).trailing_zeros()
}

// The lowest clear lane of top + 1 bits. mask has the lowest bit of each lane, and the subtraction wraps on purpose:
// only a zero lane borrows, and the lowest one is found whatever the borrow does above it.
fn clear_lane(v: u64, mask: u64, top: u32) -> u32
    requires { (top < 64) × ((n : ℕ) × (mask ≡ units (top + 1) n) × (n * (top + 1) ≡ 64)) }
    ensures { (o : ℕ) → o ≤ 6 → 2 ^ o ≡ top + 1 → result ≡ lowest o v }
{
    let below = v.wrapping_sub(mask);
    (((below & !v) >> top) & mask).trailing_zeros()
}

// The lowest clear nibble, byte and half word: one routine, under a name for each width.
fn clear_nibble(v: u64) -> u32
    ensures { result ≡ lowest 2 v }
{
    clear_lane(v, 0x1111_1111_1111_1111, 3)
}

fn clear_byte(v: u64) -> u32
    ensures { result ≡ lowest 3 v }
{
    clear_lane(v, 0x0101_0101_0101_0101, 7)
}

fn clear_half_word(v: u64) -> u32
    ensures { result ≡ lowest 4 v }
{
    clear_lane(v, 0x0001_0001_0001_0001, 15)
}

// The lowest clear half of the row.
fn clear_half(v: u64) -> u32
    ensures { result ≡ lowest 5 v }
{
    if v % 0x1_0000_0000 == 0 {
        0
    } else if v >> 32 == 0 {
        32
    } else {
        64
    }
}

// The whole row, if it is clear.
fn clear_row(v: u64) -> u32
    ensures { result ≡ lowest 6 v }
{
    if v == 0 { 0 } else { 64 }
}

// The lowest place aligned at an order whose block is clear; 64 where there is none, as trailing zeros of 0 are. It is no Option,
// since a search over rows compares it at once. Each order has its own routine, by a match.
pub fn lowest_clear(v: u64, order: usize) -> u32
    requires { order ≤ 6 }
    ensures { result ≡ lowest order v }
{
    match order {
        0 => clear_bit(v),
        1 => clear_pair(v),
        2 => clear_nibble(v),
        3 => clear_byte(v),
        4 => clear_half_word(v),
        5 => clear_half(v),
        _ => clear_row(v),
    }
}

// The answer for the lowest clear place of a block whose bits are `ones`, where it stands at place 0.
fn taken(v: u64, place: u32, ones: u64) -> Result<Found, Refusal>
    ensures { (o : ℕ) → o ≤ 6 → ones ≡ 2 ^ 2 ^ o - 1 → place ≡ lowest o v → FindsInRow v o result }
{
    if place < 64 {
        Ok(Found {
            place: place as usize,
            row: v | (ones << place),
        })
    } else {
        Err(Refusal::Memory)
    }
}

// The answer at order 5, half by half: a branch for each, since rows are mostly held in both halves or clear in one.
fn taken_half(v: u64) -> Result<Found, Refusal>
    ensures { FindsInRow v 5 result }
{
    if v % 0x1_0000_0000 == 0 {
        return taken(v, 0, 0xffff_ffff);
    }
    if v >> 32 == 0 {
        return taken(v, 32, 0xffff_ffff);
    }
    Err(Refusal::Memory)
}

// The lowest clear block of 2^order bits of a row, and the row with the block set. Each order has its own routine, by a match.
pub fn first_zeros_aligned(v: u64, order: usize) -> Result<Found, Refusal>
    ensures { FindsInRow v order result }
{
    match order {
        0 => taken(v, clear_bit(v), 0x1),
        1 => taken(v, clear_pair(v), 0x3),
        2 => taken(v, clear_nibble(v), 0xf),
        3 => taken(v, clear_byte(v), 0xff),
        4 => taken(v, clear_half_word(v), 0xffff),
        5 => taken_half(v),
        6 => taken(v, clear_row(v), u64::MAX),
        _ => Err(Refusal::Order),
    }
}
