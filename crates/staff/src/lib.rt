// What staff call: is the state sound, put counts right, why was a request turned down, how much room has a tree, and its
// entries. Each call takes any numbers and any contents, and a call that is refused writes nothing. Each is the routine of
// `staff_h` at huge order 9.
#![tactic(auto)]

ghost use Rattle.base.specs.Refused.{code_of};
ghost use Rattle.base.specs.Size.{huge_order};
ghost use Rattle.rules.specs.State.{mem};
ghost use Rattle.rules.specs.Answers.{fault_of, recovered_of, why_of};
ghost use Rattle.rules.specs.Ensured.{FindsFault, TellsWhyGet, TellsWhyGetAt, TellsWhyPut, TellsRoom, LendsRun, TellsRunCode, Recovers};

use answers::{Cause, Faulty, Mended};
use base::Refusal;
use rules::Rooms;

// The first faulty huge frame, and why it is.
pub fn audit(n: usize, t: usize, rows: &[u64], entries: &[u16]) -> Result<Option<Faulty>, Refusal>
    ensures { FindsFault huge_order n t (mem rows.now entries.now) (fault_of result) }
{
    staff_h::audit(base::HUGE_ORDER, n, t, rows, entries)
}

// Puts counts right by the bits, and clears the bits under a mark.
pub fn recover(n: usize, t: usize, rows: &mut [u64], entries: &mut [u16]) -> Result<Mended, Refusal>
    ensures { Recovers huge_order n t (mem rows.old entries.old) (recovered_of result) (mem rows.new entries.new) }
{
    staff_h::recover(base::HUGE_ORDER, n, t, rows, entries)
}

// Why a get from a start row would be turned down.
pub fn why_get(
    n: usize,
    t: usize,
    rows: &[u64],
    entries: &[u16],
    row: usize,
    order: usize,
) -> Result<Option<Cause>, Refusal>
    ensures { TellsWhyGet huge_order n t (mem rows.now entries.now) row order (why_of result) }
{
    staff_h::why_get(base::HUGE_ORDER, n, t, rows, entries, row, order)
}

// Why a get of the block at a frame would be.
pub fn why_get_at(
    n: usize,
    t: usize,
    rows: &[u64],
    entries: &[u16],
    frame: usize,
    order: usize,
) -> Result<Option<Cause>, Refusal>
    ensures { TellsWhyGetAt huge_order n t (mem rows.now entries.now) frame order (why_of result) }
{
    staff_h::why_get_at(base::HUGE_ORDER, n, t, rows, entries, frame, order)
}

// Why a put of the block at a frame would be.
pub fn why_put(
    n: usize,
    t: usize,
    rows: &[u64],
    entries: &[u16],
    frame: usize,
    order: usize,
) -> Result<Option<Cause>, Refusal>
    ensures { TellsWhyPut huge_order n t (mem rows.now entries.now) frame order (why_of result) }
{
    staff_h::why_put(base::HUGE_ORDER, n, t, rows, entries, frame, order)
}

// The room of a frame's tree.
pub fn room(n: usize, t: usize, rows: &[u64], entries: &[u16], frame: usize) -> Rooms
    ensures { TellsRoom huge_order n t (mem rows.now entries.now) frame result.code result.counts }
{
    let mut counts = [0usize; 19];
    let code = match staff_h::room(base::HUGE_ORDER, n, t, rows, entries, frame, &mut counts) {
        Ok(()) => 0,
        Err(refusal) => refusal.number(),
    };
    Rooms { code, counts }
}

// The entries of a frame's tree, as a part of those lent; none where the call is refused. It is no Result, since the number of
// the refusal is asked by a call beside it.
pub fn tree_run<'a>(n: usize, t: usize, rows: &[u64], entries: &'a [u16], frame: usize) -> &'a [u16]
    ensures { LendsRun huge_order n t (mem rows.now entries.now) frame result.now }
{
    staff_h::tree_run(base::HUGE_ORDER, n, t, rows, entries, frame)
}

// Why the tree run of a frame is refused, if it is.
pub fn tree_run_code(
    n: usize,
    t: usize,
    rows: &[u64],
    entries: &[u16],
    frame: usize,
) -> Result<(), Refusal>
    ensures { TellsRunCode huge_order n t (mem rows.now entries.now) frame (code_of result) }
{
    refuse::frame(base::HUGE_ORDER, n, t, rows.len(), entries.len(), frame)?;
    Ok(())
}
