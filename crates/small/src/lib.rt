// A block at a frame below the huge order h: one entry, and the rows of its huge frame. Which orders
// come here `lower_h` decides, and each contract asks.
// What a contract asks of numbers and lent slices is what the checks of `refuse` showed, where it says why that is no type.
#![tactic(auto)]

ghost use Rattle.std.specs.Prelude.{◌≡◌, ℕ, ◌<◌};
ghost use Rattle.base.specs.Code.{out};
ghost use Rattle.base.specs.Refused.{code_of};
ghost use Rattle.rules.specs.Answers.{got_of};
ghost use Rattle.rules.specs.Refusals.{Blocked};
ghost use Rattle.rules.specs.State.{mem, lengths_of};
ghost use Rattle.rules.specs.Get.{get_small_at};
ghost use Rattle.rules.specs.Put.{put_counted, put_marked, put_small};
ghost use Rattle.rules.specs.Queries.{is_free_small};

use answers::{Denied, Taken};
use base::{HugeOrder, Refusal};

// The block at a frame, if it is free.
#[tactic(auto, unfolding(rules::specs::Get::get_small_at, rules::specs::State::toggled))]
pub fn get_at(
    h: HugeOrder,
    rows: &mut [u64],
    entries: &mut [u16],
    frame: usize,
    order: usize,
) -> Result<Taken, Denied>
    requires { (order < h.order) × ((n : ℕ) × (t : ℕ) × Blocked h.order n t (lengths_of (mem rows.old entries.old)) frame order) }
    ensures { out (got_of result) (mem rows.new entries.new) ≡ get_small_at h.order (mem rows.old entries.old) frame order }
{
    let x = shape::frame_huge(h, frame);
    let entry = entries[x];
    if entry == shape::MARK || entry < entries::size(order) {
        return Err(Denied {
            refusal: Refusal::Memory,
            probes: 1,
        });
    }
    if part::toggle(h, rows, frame, order, false).is_err() {
        let refusal = if entries::whole(h) < entry {
            Refusal::Damage
        } else {
            Refusal::Memory
        };
        return Err(Denied { refusal, probes: 1 });
    }
    entries::lower(entries, x, order);
    Ok(Taken { frame, probes: 1 })
}

// Gives back a block of a huge frame that is held whole: all its frames become held singly, and then the block is given back.
#[tactic(auto, unfolding(rules::specs::Put::put_marked, rules::specs::State::toggled))]
fn put_marked(
    h: HugeOrder,
    rows: &mut [u64],
    entries: &mut [u16],
    frame: usize,
    order: usize,
) -> Result<(), Refusal>
    requires { (order < h.order) × ((n : ℕ) × (t : ℕ) × Blocked h.order n t (lengths_of (mem rows.old entries.old)) frame order) }
    ensures { out (code_of result) (mem rows.new entries.new) ≡ put_marked h.order (mem rows.old entries.old) frame order }
{
    let x = shape::frame_huge(h, frame);
    let first = shape::huge_frame(h, x);
    part::toggle(h, rows, first, h.order, false).map_err(|_| Refusal::Damage)?;
    // The block is set with its huge frame, so that it is cleared.
    let _ = part::toggle(h, rows, frame, order, true);
    entries[x] = entries::size(order);
    Ok(())
}

// Gives back a block of frames that are held singly.
#[tactic(auto, unfolding(rules::specs::Put::put_counted, rules::specs::State::toggled))]
fn put_counted(
    h: HugeOrder,
    rows: &mut [u64],
    entries: &mut [u16],
    frame: usize,
    order: usize,
) -> Result<(), Refusal>
    requires { (order < h.order) × ((n : ℕ) × (t : ℕ) × Blocked h.order n t (lengths_of (mem rows.old entries.old)) frame order) }
    ensures { out (code_of result) (mem rows.new entries.new) ≡ put_counted h.order (mem rows.old entries.old) frame order }
{
    let x = shape::frame_huge(h, frame);
    if entries::whole(h) - entries::size(order) < entries[x] {
        return Err(Refusal::Memory);
    }
    part::toggle(h, rows, frame, order, true)?;
    entries::raise(entries, x, order);
    Ok(())
}

// Gives back a block.
#[tactic(auto, unfolding(rules::specs::Put::put_small))]
pub fn put(
    h: HugeOrder,
    rows: &mut [u64],
    entries: &mut [u16],
    frame: usize,
    order: usize,
) -> Result<(), Refusal>
    requires { (order < h.order) × ((n : ℕ) × (t : ℕ) × Blocked h.order n t (lengths_of (mem rows.old entries.old)) frame order) }
    ensures { out (code_of result) (mem rows.new entries.new) ≡ put_small h.order (mem rows.old entries.old) frame order }
{
    if entries[shape::frame_huge(h, frame)] == shape::MARK {
        put_marked(h, rows, entries, frame, order)
    } else {
        put_counted(h, rows, entries, frame, order)
    }
}

// Whether a block is free.
#[tactic(auto, unfolding(rules::specs::Queries::is_free_small))]
pub fn is_free(h: HugeOrder, rows: &[u64], entries: &[u16], frame: usize, order: usize) -> bool
    requires { (order < h.order) × ((n : ℕ) × (t : ℕ) × Blocked h.order n t (lengths_of (mem rows.now entries.now)) frame order) }
    ensures { result ≡ is_free_small h.order (mem rows.now entries.now) frame order }
{
    let entry = entries[shape::frame_huge(h, frame)];
    if entry == shape::MARK || entry < entries::size(order) {
        return false;
    }
    entry == entries::whole(h) || bits::block_is(rows, frame, order, false)
}
