// Statistics over the entries: of all trees, of one tree, of one huge frame, and of one frame.
// What a contract asks of numbers and lent slices is what the checks of `refuse` showed, where it says why that is no type.
#![tactic(auto)]

ghost use Rattle.std.specs.Prelude.{◌≡◌, Ok, true, false, List, ℕ, ◌+◌, ◌*◌, ◌≤◌, ◌<◌, eqb, length};
ghost use Rattle.base.specs.Walk.{count};
ghost use Rattle.base.specs.Bits.{bit_is};
ghost use Rattle.rules.specs.Numbers.{row_of, huge_of, tree_at};
ghost use Rattle.rules.specs.Refusals.{Sized, Framed};
ghost use Rattle.rules.specs.State.{mem, entry_of, free_of, lengths, lengths_of};
ghost use Rattle.rules.specs.Answers.{stats_of};
ghost use Rattle.rules.specs.Queries as spec;

use answers::Free;
use base::HugeOrder;
use shape::TreeSize;

// How many of the first k entries are v. The count is 16 bits wide, so that the compiler takes several entries at a time.
fn count_of(entries: &[u16], v: u16, k: usize) -> usize
    requires { (k ≤ length entries.now) × (k < 65536) }
    ensures { result ≡ count (λ x. eqb (entry_of entries.now x) v) k 0 }
{
    let mut sum: u16 = 0;
    // By index: over a part of the slice the same loop was slower by a tenth.
    for x in 0..k {
        if entries[x] == v {
            sum += 1;
        }
    }
    usize::from(sum)
}

// How many of the first k trees have as many free frames as a tree has.
fn free_trees(entries: &[u16], t: usize, frames: usize, k: usize) -> usize
    requires { (k * t ≤ length entries.now) × (t ≤ 512) }
    ensures { result ≡ count (λ y. eqb (spec.free_in entries.now t (y * t)) frames) k 0 }
{
    // A loop: over trees of two entries a filter's count was slower by two fifths.
    let mut sum = 0;
    for y in 0..k {
        if entries::blocks(entries, t, y * t, 0) == frames {
            sum += 1;
        }
    }
    sum
}

// The same. A tree of two or four entries is summed with no loop of its own, as the compiler is given its size as a number.
fn free_trees_by_size(entries: &[u16], t: usize, frames: usize, k: usize) -> usize
    requires { (k * t ≤ length entries.now) × (t ≤ 512) }
    ensures { result ≡ count (λ y. eqb (spec.free_in entries.now t (y * t)) frames) k 0 }
{
    match t {
        2 => free_trees(entries, 2, frames, k),
        4 => free_trees(entries, 4, frames, k),
        _ => free_trees(entries, t, frames, k),
    }
}

// Free frames, huge frames and trees of all entries. A tree of one huge frame is free where that is: none is summed.
pub fn all(h: HugeOrder, n: usize, t: TreeSize, entries: &[u16]) -> Free
    requires { (rl : ℕ) × Sized h.order n t.huge (lengths rl (length entries.now)) }
    ensures { stats_of (Ok result) ≡ spec.stats_all h.order n t.huge entries.now }
{
    let needed = shape::entries_needed(h, n, t);
    let frames = entries::blocks(entries, needed, 0, 0);
    let huge = count_of(entries, entries::whole(h), needed);
    let trees = if t.huge == 1 {
        huge
    } else {
        free_trees_by_size(
            entries,
            t.huge,
            base::size(shape::top_order(h, t)),
            shape::huge_tree(t.log(), needed),
        )
    };
    Free {
        frames,
        huge,
        trees,
    }
}

// The free count of a frame's huge frame.
fn free_of(h: HugeOrder, entries: &[u16], frame: usize) -> usize
    requires { huge_of h.order frame < length entries.now }
    ensures { result ≡ free_of (entry_of entries.now (huge_of h.order frame)) }
{
    entries::free(entries[shape::frame_huge(h, frame)]) as usize
}

// Whether a frame's bit is clear.
fn is_clear(rows: &[u64], frame: usize) -> bool
    requires { row_of frame < length rows.now }
    ensures { result ≡ bit_is false rows.now frame }
{
    let row = rows[shape::frame_row(frame)];
    (row >> shape::frame_bit(frame)) % 2 == 0
}

// At a frame alone. Count and bit are both read before either is tested, so that the compiler needs no branch: one on a frame's
// state would be mispredicted half of the time.
fn at_frame(h: HugeOrder, rows: &[u64], entries: &[u16], frame: usize) -> Free
    requires { (huge_of h.order frame < length entries.now) × (row_of frame < length rows.now) }
    ensures { stats_of (Ok result) ≡ spec.at_frame h.order (mem rows.now entries.now) frame }
{
    let count = free_of(h, entries, frame);
    let clear = is_clear(rows, frame);
    Free {
        frames: usize::from(clear && count > 0),
        huge: 0,
        trees: 0,
    }
}

// At a frame's tree, where no row is looked at.
fn at_tree(h: HugeOrder, t: TreeSize, entries: &[u16], frame: usize) -> Free
    requires { tree_at h.order t.huge frame + t.huge ≤ length entries.now }
    ensures { (rows : List ℕ) → stats_of (Ok result) ≡ spec.at_tree h.order t.huge (mem rows entries.now) frame }
{
    let first = shape::tree_first(h, t, frame);
    let frames = entries::blocks(entries, t.huge, first, 0);
    Free {
        frames,
        huge: entries::blocks(entries, t.huge, first, h.order),
        trees: frames >> shape::top_order(h, t),
    }
}

// The same. A tree of two entries is summed with no loop, as the compiler is given its size as a number.
fn at_tree_by_size(h: HugeOrder, t: TreeSize, entries: &[u16], frame: usize) -> Free
    requires { tree_at h.order t.huge frame + t.huge ≤ length entries.now }
    ensures { (rows : List ℕ) → stats_of (Ok result) ≡ spec.at_tree h.order t.huge (mem rows entries.now) frame }
{
    match t.huge {
        2 => at_tree(h, TreeSize { huge: 2 }, entries, frame),
        _ => at_tree(h, t, entries, frame),
    }
}

// At a frame, its huge frame or its tree, as the order says.
pub fn at(
    h: HugeOrder,
    t: TreeSize,
    rows: &[u64],
    entries: &[u16],
    frame: usize,
    order: usize,
) -> Free
    requires { (n : ℕ) × Framed h.order n t.huge (lengths_of (mem rows.now entries.now)) frame }
    ensures { stats_of (Ok result) ≡ spec.at_order h.order t.huge (mem rows.now entries.now) frame order }
{
    if order == 0 {
        at_frame(h, rows, entries, frame)
    } else if order == h.order {
        let frames = free_of(h, entries, frame);
        Free {
            frames,
            huge: frames >> h.order,
            trees: 0,
        }
    } else if order == shape::top_order(h, t) {
        at_tree_by_size(h, t, entries, frame)
    } else {
        Free {
            frames: 0,
            huge: 0,
            trees: 0,
        }
    }
}
