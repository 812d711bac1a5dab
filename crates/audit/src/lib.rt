// The audit: what is wrong with a huge frame's entry and bits, and the first huge frame that is faulty. It only reads.
// What a contract asks of numbers and lent slices is what the checks of `refuse` showed, where it says why that is no type.
#![tactic(auto)]

ghost use Rattle.std.specs.Prelude.{◌≡◌, Ok, true, ℕ, ◌+◌, ◌-◌, ◌*◌, ◌^◌, ◌<◌, ◌≤◌, length};
ghost use Rattle.base.specs.Bits.{block_is};
ghost use Rattle.base.specs.Size.{rows_per};
ghost use Rattle.rules.specs.Numbers.{entries_needed};
ghost use Rattle.rules.specs.Refusals.{Sized};
ghost use Rattle.rules.specs.State.{mem, lengths_of};
ghost use Rattle.rules.specs.Answers.{reason_in, fault_of};
ghost use Rattle.rules.specs.Audit as spec;

use answers::{Faulty, Flaw};
use base::HugeOrder;
use shape::TreeSize;

// Whether the bits of huge frame x past N are all set.
fn past_is_set(h: HugeOrder, n: usize, rows: &[u64], x: usize) -> bool
    requires { (x < 1048576) × ((x + 1) * rows_per h.order ≤ length rows.now) }
    ensures { result ≡ block_is true rows.now n ((x + 1) * 2 ^ h.order - n) }
{
    shape::huge_frame(h, x + 1) <= n || bits::rest_is_set(&rows[..shape::huge_row(h, x + 1)], n)
}

// What is wrong with a present huge frame with the mark.
fn marked_reason(h: HugeOrder, n: usize, rows: &[u64], x: usize) -> Option<Flaw>
    requires { (x < 1048576) × ((x + 1) * rows_per h.order ≤ length rows.now) }
    ensures { reason_in result ≡ spec.marked_reason h.order n rows.now x }
{
    if n < shape::huge_frame(h, x + 1) {
        Some(Flaw::PartialMark)
    } else if part::zeros(h, rows, x) != h.frames() {
        Some(Flaw::HeldUnderMark)
    } else {
        None
    }
}

// What is wrong with a present huge frame with a count.
fn counted_reason(h: HugeOrder, n: usize, rows: &[u64], entry: u16, x: usize) -> Option<Flaw>
    requires { (x < 1048576) × ((x + 1) * rows_per h.order ≤ length rows.now) }
    ensures { reason_in result ≡ spec.counted_reason h.order n rows.now entry x }
{
    if !past_is_set(h, n, rows, x) {
        Some(Flaw::ClearPastEnd)
    } else if usize::from(entry) != part::zeros(h, rows, x) {
        Some(Flaw::WrongCount)
    } else {
        None
    }
}

// What is wrong with huge frame x.
pub fn reason(h: HugeOrder, n: usize, rows: &[u64], entries: &[u16], x: usize) -> Option<Flaw>
    requires { (t : ℕ) × (Sized h.order n t (lengths_of (mem rows.now entries.now)) × (x < entries_needed h.order n t)) }
    ensures { reason_in result ≡ spec.reason h.order n (mem rows.now entries.now) x }
{
    let entry = entries[x];
    if n <= shape::huge_frame(h, x) {
        (entry != 0).then_some(Flaw::AbsentEntry)
    } else if entry == shape::MARK {
        marked_reason(h, n, rows, x)
    } else {
        counted_reason(h, n, rows, entry, x)
    }
}

// The first faulty huge frame.
pub fn all(h: HugeOrder, n: usize, t: TreeSize, rows: &[u64], entries: &[u16]) -> Option<Faulty>
    requires { Sized h.order n t.huge (lengths_of (mem rows.now entries.now)) }
    ensures { fault_of (Ok result) ≡ spec.audit_all h.order n t.huge (mem rows.now entries.now) }
{
    (0..shape::entries_needed(h, n, t)).find_map(|x| {
        let flaw = reason(h, n, rows, entries, x)?;
        Some(Faulty { huge: x, flaw })
    })
}
