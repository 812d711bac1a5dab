// Get without a frame below the huge order h: the entries of a tree are visited one by one. Search first, write afterwards, so
// that a refusal writes nothing.
// What a contract asks of numbers and lent slices is what the checks of `refuse` showed, where it says why that is no type.
// Some are always inlined, since a Result with a number in it comes back through memory.
#![tactic(auto)]

ghost use Rattle.std.specs.Prelude.{◌≡◌, ◌+◌, ◌-◌, ◌*◌, ◌/◌, ◌^◌, ◌<◌, ◌≤◌, length, nat_le, unwrap_or, IfSome, IfErr};
ghost use Rattle.base.specs.Walk.{first};
ghost use Rattle.base.specs.Code.{out};
ghost use Rattle.base.specs.Size.{rows_per};
ghost use Rattle.base.specs.declared.Refusal.TheVariants.{Damage};
ghost use Rattle.rules.specs.Answers.{got_of, visit_of};
ghost use Rattle.rules.specs.Refusals.{Started};
ghost use Rattle.rules.specs.State.{mem, free_of, lengths_of};
ghost use Rattle.rules.specs.Get.{eligible, entry_at, get_small, visit};

use answers::{Denied, Taken};
use base::{HugeOrder, Refusal};
use shape::TreeSize;

// Looks at one entry, and where it may have a block at the rows of its huge frame: the first block that is free, if there is one.
#[tactic(auto, unfolding(rules::specs::Get::visit))]
#[inline(always)]
fn look(
    h: HugeOrder,
    n: usize,
    rows: &[u64],
    entries: &[u16],
    row: usize,
    order: usize,
    x: usize,
) -> Result<Option<usize>, Refusal>
    requires { (order < h.order) × (n ≤ 1048576) × (x < length entries.now) × (x < 1048576) × (x * 2 ^ h.order < n → (x + 1) * rows_per h.order ≤ length rows.now) }
    ensures seen { visit_of result ≡ visit h.order n (mem rows.now entries.now) row order x }
    ensures damage { IfErr result (λ e. e ≡ Damage) }
{
    let entry = entries[x];
    let size = base::size(order);
    if entry == shape::MARK || (entry as usize) < size {
        return Ok(None);
    }
    let first = shape::huge_frame(h, x);
    if n <= first {
        return Err(Refusal::Damage);
    }
    match part::first_zeros(h, rows, x, row, order) {
        Ok(place) if first + place + size <= n => Ok(Some(first + place)),
        Err(_) if entry as usize <= h.frames() => Ok(None),
        _ => Err(Refusal::Damage),
    }
}

// The entry that a get from entry x on visits after j others, wrapping in the tree by a mask: none waits for the one before it.
fn entry_at(t: TreeSize, x: usize, j: usize) -> usize
    requires { (x < 1048576) × (j ≤ 512) }
    ensures { result ≡ entry_at t.huge x j }
{
    let child = x & (t.huge - 1);
    x - child + ((child + j) & (t.huge - 1))
}

// Whether an entry counts at least so many free frames. With 1 added the mark wraps to 0, so that one test serves it too.
fn counts(entry: u16, size: u16) -> bool
    requires { 0 < size }
    ensures { result ≡ nat_le size (free_of entry) }
{
    size < entry.wrapping_add(1)
}

// The first visit, from the one after j others on, whose entry may have a block.
fn next(entries: &[u16], t: TreeSize, x: usize, order: usize, j: usize) -> Option<usize>
    requires { (x < 1048576) × ((x / t.huge + 1) * t.huge ≤ length entries.now) × (order < 16) × (j ≤ t.huge) }
    ensures place { unwrap_or result t.huge ≡ first (λ i. eligible entries.now order (entry_at t.huge x i)) (t.huge - j) j }
    ensures below { IfSome result (λ i. i < t.huge) }
{
    let size = entries::size(order);
    for i in j..t.huge {
        if counts(entries[entry_at(t, x, i)], size) {
            return Some(i);
        }
    }
    None
}

// The first block of the start row's tree, from its huge frame on.
pub fn get(
    h: HugeOrder,
    n: usize,
    t: TreeSize,
    rows: &mut [u64],
    entries: &mut [u16],
    row: usize,
    order: usize,
) -> Result<Taken, Denied>
    requires { (order < h.order) × Started h.order n t.huge (lengths_of (mem rows.old entries.old)) row order }
    ensures { out (got_of result) (mem rows.new entries.new) ≡ get_small h.order n t.huge (mem rows.old entries.old) row order }
{
    let start = shape::row_huge(h, row);
    let mut from = 0;
    while let Some(j) = next(entries, t, start, order, from) {
        let x = entry_at(t, start, j);
        match look(h, n, rows, entries, row, order, x) {
            Ok(Some(frame)) => {
                // The bits were found clear, so that they are turned.
                let _ = part::toggle(h, rows, frame, order, false);
                entries::lower(entries, x, order);
                return Ok(Taken {
                    frame,
                    probes: j + 1,
                });
            }
            Ok(None) => from = j + 1,
            Err(refusal) => {
                return Err(Denied {
                    refusal,
                    probes: j + 1,
                });
            }
        }
    }
    Err(Denied {
        refusal: Refusal::Memory,
        probes: t.huge,
    })
}
