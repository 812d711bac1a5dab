// Orders from the huge order h on: groups of entries are taken, given back and asked; no row is looked at. Which orders
// come here `lower_h` decides, and each contract asks.
// What a contract asks of numbers and lent slices is what the checks of `refuse` showed, where it says why that is no type.
#![tactic(auto)]

ghost use Rattle.std.specs.Prelude.{◌≡◌, ℕ, ◌+◌, ◌≤◌, length};
ghost use Rattle.base.specs.Code.{out};
ghost use Rattle.base.specs.Refused.{code_of};
ghost use Rattle.rules.specs.Answers.{got_of};
ghost use Rattle.rules.specs.State.{lengths};
ghost use Rattle.rules.specs.Refusals.{Blocked, Started};
ghost use Rattle.rules.specs.Get.{get_huge, get_huge_at, take_group};
ghost use Rattle.rules.specs.Queries.{is_free_huge};
ghost use Rattle.rules.specs.Put.{put_huge};

use answers::{Denied, Taken};
use base::{HugeOrder, Refusal};
use shape::TreeSize;

// The first free group of a tree, from the group of the start row on, wrapping.
pub fn get(
    h: HugeOrder,
    n: usize,
    t: TreeSize,
    entries: &mut [u16],
    row: usize,
    order: usize,
) -> Result<Taken, Denied>
    requires { (h.order ≤ order) × ((rl : ℕ) × Started h.order n t.huge (lengths rl (length entries.old)) row order) }
    ensures { out (got_of result) entries.new ≡ get_huge h.order n t.huge entries.old row order }
{
    let k = t.log();
    let x = shape::row_huge(h, row);
    let first = shape::tree_huge(k, shape::huge_tree(k, x));
    let g = base::size(order - h.order);
    let free = entries::whole(h);
    let end = first + t.huge;
    // Where a group begins is kept beside its number, since it wraps where the tree ends.
    let mut at = x - shape::huge_child(order - h.order, x);
    let groups = base::size(h.order + k - order);
    for j in 0..groups {
        if entries::are(entries, free, at, g) {
            return take(h, n, entries, at, g, j + 1);
        }
        at += g;
        if at == end {
            at = first;
        }
    }
    Err(Denied {
        refusal: Refusal::Memory,
        probes: groups,
    })
}

// Takes a free group, unless it ends past N.
#[tactic(auto, unfolding(rules::specs::Get::take_group))]
fn take(
    h: HugeOrder,
    n: usize,
    entries: &mut [u16],
    at: usize,
    g: usize,
    probes: usize,
) -> Result<Taken, Denied>
    requires { (at + g ≤ length entries.old) × (at + g ≤ 1048576) }
    ensures { out (got_of result) entries.new ≡ take_group h.order n entries.old at g probes }
{
    if n < shape::huge_frame(h, at + g) {
        return Err(Denied {
            refusal: Refusal::Damage,
            probes,
        });
    }
    entries::fill(entries, shape::MARK, at, g);
    Ok(Taken {
        frame: shape::huge_frame(h, at),
        probes,
    })
}

// The group at a frame, if it is free.
#[tactic(auto, unfolding(rules::specs::Get::get_huge_at))]
pub fn get_at(
    h: HugeOrder,
    entries: &mut [u16],
    frame: usize,
    order: usize,
) -> Result<Taken, Denied>
    requires { (h.order ≤ order) × ((n : ℕ) × (t : ℕ) × (rl : ℕ) × Blocked h.order n t (lengths rl (length entries.old)) frame order) }
    ensures { out (got_of result) entries.new ≡ get_huge_at h.order entries.old frame order }
{
    let at = shape::frame_huge(h, frame);
    let g = base::size(order - h.order);
    if !entries::are(entries, entries::whole(h), at, g) {
        return Err(Denied {
            refusal: Refusal::Memory,
            probes: 1,
        });
    }
    entries::fill(entries, shape::MARK, at, g);
    Ok(Taken { frame, probes: 1 })
}

// Gives back a group that is held whole.
#[tactic(auto, unfolding(rules::specs::Put::put_huge))]
pub fn put(h: HugeOrder, entries: &mut [u16], frame: usize, order: usize) -> Result<(), Refusal>
    requires { (h.order ≤ order) × ((n : ℕ) × (t : ℕ) × (rl : ℕ) × Blocked h.order n t (lengths rl (length entries.old)) frame order) }
    ensures { out (code_of result) entries.new ≡ put_huge h.order entries.old frame order }
{
    let at = shape::frame_huge(h, frame);
    let g = base::size(order - h.order);
    if !entries::are(entries, shape::MARK, at, g) {
        return Err(Refusal::Memory);
    }
    entries::fill(entries, entries::whole(h), at, g);
    Ok(())
}

// Whether a group is free.
#[tactic(auto, unfolding(rules::specs::Queries::is_free_huge))]
pub fn is_free(h: HugeOrder, entries: &[u16], frame: usize, order: usize) -> bool
    requires { (h.order ≤ order) × ((n : ℕ) × (t : ℕ) × (rl : ℕ) × Blocked h.order n t (lengths rl (length entries.now)) frame order) }
    ensures { result ≡ is_free_huge h.order entries.now frame order }
{
    entries::are(
        entries,
        entries::whole(h),
        shape::frame_huge(h, frame),
        base::size(order - h.order),
    )
}
