// The room of a tree: how many blocks of each order its entries promise.
// What a contract asks of numbers and lent slices is what the checks of `refuse` showed, where it says why that is no type.
#![tactic(auto)]

ghost use Rattle.std.specs.Prelude.{◌≡◌, ℕ, ◌+◌, ◌*◌, ◌^◌, ◌≤◌, ◌<◌, length, replicate};
ghost use Rattle.base.specs.Walk.{count};
ghost use Rattle.rules.specs.Numbers.{top_order};
ghost use Rattle.rules.specs.State.{entries_are, lengths};
ghost use Rattle.rules.specs.Refusals.{Framed};
ghost use Rattle.rules.specs.Room as spec;

use base::HugeOrder;
use shape::TreeSize;

// How many of the groups of g entries, c in all, from at on are free whole.
fn groups(h: HugeOrder, entries: &[u16], at: usize, g: usize, c: usize) -> usize
    requires { at + c * g ≤ length entries.now }
    ensures { result ≡ count (λ j. entries_are (2 ^ h.order) entries.now (at + j * g) g) c 0 }
{
    let free = entries::whole(h);
    // A loop: with a filter's count the room of a tree of 512 took up to a half longer.
    let mut blocks = 0;
    for j in 0..c {
        if entries::are(entries, free, at + j * g, g) {
            blocks += 1;
        }
    }
    blocks
}

// The count at an order, in the tree of t entries from at on, whose order is top: it is told, so that it is computed once for all.
pub fn at_order(
    h: HugeOrder,
    t: TreeSize,
    top: usize,
    entries: &[u16],
    at: usize,
    order: usize,
) -> usize
    requires { (top ≡ top_order h.order t.huge) × (at + t.huge ≤ length entries.now) }
    ensures { result ≡ spec.room_at h.order t.huge entries.now at order }
{
    if order < h.order {
        entries::blocks(entries, t.huge, at, order)
    } else if order <= top {
        groups(
            h,
            entries,
            at,
            base::size(order - h.order),
            base::size(top - order),
        )
    } else {
        0
    }
}

// Fills in the count of each order, in counts that are 0.
pub fn counts(h: HugeOrder, t: TreeSize, entries: &[u16], frame: usize, counts: &mut [usize])
    requires { ((n : ℕ) × (rl : ℕ) × Framed h.order n t.huge (lengths rl (length entries.now)) frame) × (counts.old ≡ replicate (spec.orders h.order) 0) }
    ensures { counts.new ≡ spec.room_of h.order t.huge entries.now frame }
{
    let top = shape::top_order(h, t);
    let at = shape::tree_first(h, t, frame);
    for (order, count) in counts.iter_mut().enumerate() {
        *count = at_order(h, t, top, entries, at, order);
    }
}
