// Recovery: counts that differ from the clear bits are replaced, and bits under a mark are cleared.
// What a contract asks of numbers and lent slices is what the checks of `refuse` showed, where it says why that is no type.
#![tactic(auto)]

ghost use Rattle.std.specs.Prelude.{◌≡◌, Ok, not, ◌+◌, ◌*◌, ◌^◌, ◌≤◌, ◌<◌, eqb, length};
ghost use Rattle.base.specs.Walk.{pick};
ghost use Rattle.base.specs.Code.{out};
ghost use Rattle.base.specs.Size.{rows_per};
ghost use Rattle.rules.specs.Numbers.{mark};
ghost use Rattle.rules.specs.Refusals.{Sized};
ghost use Rattle.rules.specs.State.{mem, lengths_of};
ghost use Rattle.recover.specs.Mend as mend;
ghost use Rattle.rules.specs.Answers.{recovered_of};
ghost use Rattle.rules.specs.Recover as spec;

use answers::{Flaw, Mended};
use base::{HugeOrder, Refusal};
use shape::TreeSize;

// The clear bits that agree with an entry: all of the huge frame's under a mark, and otherwise as many as it counts.
fn expected_zeros(h: HugeOrder, entry: u16) -> usize
    ensures { result ≡ pick (eqb entry mark) (2 ^ h.order) entry }
{
    if entry == shape::MARK {
        h.frames()
    } else {
        usize::from(entry)
    }
}

// Recovers one huge frame, where its entry and its bits disagree: a mark stays, over cleared bits; a count is replaced. One test
// decides for both, beside the count itself: so the compiler counts two rows at a time.
fn mend(h: HugeOrder, rows: &mut [u64], entries: &mut [u16], x: usize) -> Mended
    requires { (x < length entries.old) × ((x + 1) * rows_per h.order ≤ length rows.old) }
    ensures { out (recovered_of (Ok result)) (mem rows.new entries.new) ≡ mend.mended_at h.order (mem rows.old entries.old) x }
{
    let entry = entries[x];
    let zeros = part::zeros(h, rows, x);
    if zeros == expected_zeros(h, entry) {
        Mended {
            entries: 0,
            bitfields: 0,
        }
    } else if entry == shape::MARK {
        bits::fill_rows(
            &mut rows[shape::huge_row(h, x)..shape::huge_row(h, x + 1)],
            0,
        );
        Mended {
            entries: 0,
            bitfields: 1,
        }
    } else {
        entries[x] = zeros as u16;
        Mended {
            entries: 1,
            bitfields: 0,
        }
    }
}

// Whether a huge frame has reason 1, 3 or 5. Only the last present one can have 1 or 3, which need frames past N; absent ones have no other than 5.
fn is_blocked(h: HugeOrder, n: usize, t: TreeSize, rows: &[u64], entries: &[u16]) -> bool
    requires { Sized h.order n t.huge (lengths_of (mem rows.now entries.now)) }
    ensures { result ≡ not (spec.recoverable h.order n t.huge (mem rows.now entries.now)) }
{
    let last = shape::frame_huge(h, n - 1);
    let absent = last + 1;
    matches!(
        audit::reason(h, n, rows, entries, last),
        Some(Flaw::PartialMark | Flaw::ClearPastEnd)
    ) || !entries::are(entries, 0, absent, shape::entries_needed(h, n, t) - absent)
}

// Recovers every present huge frame, unless one is damaged beyond it.
pub fn all(
    h: HugeOrder,
    n: usize,
    t: TreeSize,
    rows: &mut [u64],
    entries: &mut [u16],
) -> Result<Mended, Refusal>
    requires { Sized h.order n t.huge (lengths_of (mem rows.old entries.old)) }
    ensures { out (recovered_of result) (mem rows.new entries.new) ≡ spec.recover_all h.order n t.huge (mem rows.old entries.old) }
{
    if is_blocked(h, n, t, rows, entries) {
        return Err(Refusal::Damage);
    }
    let mut total = Mended {
        entries: 0,
        bitfields: 0,
    };
    for x in 0..shape::frame_huge(h, n - 1) + 1 {
        let mended = mend(h, rows, entries, x);
        total.entries += mended.entries;
        total.bitfields += mended.bitfields;
    }
    Ok(total)
}
