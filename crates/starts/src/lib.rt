// The two starts: every needed row and entry is written, and nothing beyond them.
// What a contract asks of numbers and lent slices is what the checks of `refuse` showed, where it says why that is no type.
#![tactic(auto)]

ghost use Rattle.std.specs.Prelude.{◌≡◌, ℕ, ◌≤◌, length};
ghost use Rattle.base.specs.Walk.{pick, written};
ghost use Rattle.rules.specs.Numbers.{rows_needed, entries_needed, whole};
ghost use Rattle.rules.specs.Refusals.{Sized};
ghost use Rattle.rules.specs.State.{mem, lengths, lengths_of};
ghost use Rattle.rules.specs.Starts as spec;

use base::HugeOrder;
use shape::TreeSize;

// Clears the bits of the frames below c, and sets those of the needed rows from there on.
fn write_rows(h: HugeOrder, n: usize, rows: &mut [u64], c: usize)
    requires { (n ≤ 1048576) × (c ≤ n) × (rows_needed h.order n ≤ length rows.old) }
    ensures { rows.new ≡ spec.rows_from h.order n rows.old c }
{
    let needed = shape::rows_needed(h, n);
    let border = shape::frame_row(c);
    bits::fill_rows(&mut rows[0..border], 0);
    bits::fill_rows(&mut rows[border..needed], u64::MAX);
    if border < needed {
        rows[border] = u64::MAX << shape::frame_bit(c);
    }
}

// Makes the entry of each huge frame that lies wholly below N v, and every other needed one 0.
fn write_entries(h: HugeOrder, n: usize, t: TreeSize, entries: &mut [u16], v: u16)
    requires { (rl : ℕ) × Sized h.order n t.huge (lengths rl (length entries.old)) }
    ensures { entries.new ≡ written (λ x. pick (whole h.order n x) v 0) entries.old 0 (entries_needed h.order n t.huge) }
{
    let needed = shape::entries_needed(h, n, t);
    let wholes = shape::frame_huge(h, n);
    entries::fill(entries, v, 0, wholes);
    entries::fill(entries, 0, wholes, needed - wholes);
}

// All frames below N free.
pub fn free_all(h: HugeOrder, n: usize, t: TreeSize, rows: &mut [u64], entries: &mut [u16])
    requires { Sized h.order n t.huge (lengths_of (mem rows.old entries.old)) }
    ensures { mem rows.new entries.new ≡ spec.all_free h.order n t.huge (mem rows.old entries.old) }
{
    write_rows(h, n, rows, n);
    write_entries(h, n, t, entries, entries::whole(h));
    let partial = shape::frame_huge(h, n);
    let first = shape::huge_frame(h, partial);
    if first < n {
        entries[partial] = (n - first) as u16;
    }
}

// All frames below N held.
#[tactic(auto, unfolding(rules::specs::Starts::all_held))]
pub fn reserve_all(h: HugeOrder, n: usize, t: TreeSize, rows: &mut [u64], entries: &mut [u16])
    requires { Sized h.order n t.huge (lengths_of (mem rows.old entries.old)) }
    ensures { mem rows.new entries.new ≡ spec.all_held h.order n t.huge (mem rows.old entries.old) }
{
    write_rows(h, n, rows, shape::huge_frame(h, shape::frame_huge(h, n)));
    write_entries(h, n, t, entries, shape::MARK);
}
