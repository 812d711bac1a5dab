// Why a get or a put is turned down: document 02's reasons, of a request that passed its checks and a tree that is consistent.
// Whether a tree is consistent. All of it only reads.
// What a contract asks of numbers and lent slices is what the checks of `refuse` showed, where it says why that is no type.
#![tactic(auto)]

ghost use Rattle.std.specs.Prelude.{◌≡◌, Ok, ℕ, ◌+◌, ◌*◌, ◌/◌, ◌^◌, ◌≤◌, ◌<◌, length};
ghost use Rattle.base.specs.Size.{rows_per};
ghost use Rattle.bits.specs.Block.{Block};
ghost use Rattle.rules.specs.Numbers.{tree_of, top_order};
ghost use Rattle.rules.specs.State.{mem, entry_of, free_of, lengths_of};
ghost use Rattle.rules.specs.Refusals.{Framed, Blocked};
ghost use Rattle.rules.specs.Consistent.{ConsistentIn};
ghost use Rattle.why.specs.Told.{frame_is, small_reason, found};
ghost use Rattle.rules.specs.Answers.{why_of};
ghost use Rattle.rules.specs.Why as spec;

use answers::Cause;
use base::HugeOrder;
use shape::TreeSize;

// Whether the tree of a frame is consistent: no huge frame of it has a reason of the audit's.
pub fn sound(
    h: HugeOrder,
    n: usize,
    t: TreeSize,
    rows: &[u64],
    entries: &[u16],
    frame: usize,
) -> bool
    requires { Framed h.order n t.huge (lengths_of (mem rows.now entries.now)) frame }
    ensures { result ≡ spec.sound h.order n t.huge (mem rows.now entries.now) (tree_of h.order t.huge frame) }
{
    let first = shape::tree_first(h, t, frame);
    (first..first + t.huge).all(|x| audit::reason(h, n, rows, entries, x).is_none())
}

// Below the huge order: no huge frame of the tree counts enough free frames, or none of those that do has a clear block.
fn get_small(
    h: HugeOrder,
    t: TreeSize,
    rows: &[u64],
    entries: &[u16],
    first: usize,
    order: usize,
) -> Option<Cause>
    requires { (order < h.order) × (first + t.huge ≤ length entries.now) × ((x : ℕ) → first ≤ x → x < first + t.huge → 0 < free_of (entry_of entries.now x) → (x + 1) * rows_per h.order ≤ length rows.now) }
    ensures { why_of (Ok result) ≡ spec.why 0 (small_reason h.order t.huge (mem rows.now entries.now) first order) 0 }
{
    let size = base::size(order);
    let mut cause = Cause::Spread;
    for x in first..first + t.huge {
        if size <= entries::free(entries[x]) as usize {
            if part::first_zeros(h, rows, x, 0, order).is_ok() {
                return None;
            }
            cause = Cause::NoBlock;
        }
    }
    Some(cause)
}

// Why a get without a frame in the tree of a frame is turned down.
pub fn get(
    h: HugeOrder,
    t: TreeSize,
    rows: &[u64],
    entries: &[u16],
    frame: usize,
    order: usize,
) -> Option<Cause>
    requires { (order ≤ top_order h.order t.huge) × ((n : ℕ) × (Framed h.order n t.huge (lengths_of (mem rows.now entries.now)) frame) × ConsistentIn h.order n t.huge (mem rows.now entries.now) (tree_of h.order t.huge frame)) }
    ensures { (n : ℕ) → ConsistentIn h.order n t.huge (mem rows.now entries.now) (tree_of h.order t.huge frame) → frame < n → why_of (Ok result) ≡ spec.why 0 (spec.get_reason h.order n t.huge (mem rows.now entries.now) (tree_of h.order t.huge frame) order) 0 }
{
    let first = shape::tree_first(h, t, frame);
    if entries::blocks(entries, t.huge, first, 0) < base::size(order) {
        Some(Cause::TooFew)
    } else if order < h.order {
        get_small(h, t, rows, entries, first, order)
    } else if room::at_order(h, t, shape::top_order(h, t), entries, first, order) == 0 {
        Some(Cause::NoBlock)
    } else {
        None
    }
}

// The first frame of a block that is held, or that is free, where the block lies in a huge frame. Under the mark all are held,
// else the bits tell.
fn first_in_huge(
    h: HugeOrder,
    rows: &[u64],
    entries: &[u16],
    frame: usize,
    order: usize,
    held: bool,
) -> Option<usize>
    requires { (order ≤ h.order) × (Block rows.now frame order) × (frame + 2 ^ order < 2 ^ 64) × (frame / 2 ^ h.order < length entries.now) }
    ensures { result ≡ found (frame_is held h.order (mem rows.now entries.now)) (2 ^ order) frame }
{
    if entries[shape::frame_huge(h, frame)] == shape::MARK {
        return held.then_some(frame);
    }
    let first = bits::block_first(rows, frame, order, held);
    (first < frame + base::size(order)).then_some(first)
}

// The same of any block, huge frame by huge frame.
fn first_frame(
    h: HugeOrder,
    rows: &[u64],
    entries: &[u16],
    frame: usize,
    order: usize,
    held: bool,
) -> Option<usize>
    requires { (n : ℕ) × (t : ℕ) × Blocked h.order n t (lengths_of (mem rows.now entries.now)) frame order }
    ensures { result ≡ found (frame_is held h.order (mem rows.now entries.now)) (2 ^ order) frame }
{
    if order <= h.order {
        return first_in_huge(h, rows, entries, frame, order, held);
    }
    let size = h.frames();
    (0..base::size(order - h.order)).find_map(|i| {
        first_in_huge(h, rows, entries, frame + i * size, h.order, held)
    })
}

// The first of the g entries from at on that is not the mark.
fn first_unmarked(entries: &[u16], at: usize, g: usize) -> Option<usize>
    requires { at + g ≤ length entries.now }
    ensures { result ≡ found (spec.unmarked entries.now) g at }
{
    (at..at + g).find(|x| entries[*x] != shape::MARK)
}

// Why a get with a frame is turned down.
pub fn get_at(
    h: HugeOrder,
    rows: &[u64],
    entries: &[u16],
    frame: usize,
    order: usize,
) -> Option<Cause>
    requires { (n : ℕ) × (t : ℕ) × Blocked h.order n t (lengths_of (mem rows.now entries.now)) frame order }
    ensures { (n : ℕ) → frame + 2 ^ order ≤ n → why_of (Ok result) ≡ spec.get_at_reason h.order n (mem rows.now entries.now) frame order }
{
    first_frame(h, rows, entries, frame, order, true).map(Cause::Held)
}

// Why a put is turned down.
pub fn put(h: HugeOrder, rows: &[u64], entries: &[u16], frame: usize, order: usize) -> Option<Cause>
    requires { (n : ℕ) × (t : ℕ) × Blocked h.order n t (lengths_of (mem rows.now entries.now)) frame order }
    ensures { (n : ℕ) → frame + 2 ^ order ≤ n → why_of (Ok result) ≡ spec.put_reason h.order n (mem rows.now entries.now) frame order }
{
    if let Some(free) = first_frame(h, rows, entries, frame, order, false) {
        return Some(Cause::Free(free));
    }
    if order < h.order {
        return None;
    }
    let x = first_unmarked(
        entries,
        shape::frame_huge(h, frame),
        base::size(order - h.order),
    )?;
    Some(Cause::Single(shape::huge_frame(h, x)))
}
