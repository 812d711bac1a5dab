// What a get would answer now. The code rests on a theorem: from a consistent state a get, and a put of what it took, leave no
// trace.
#![tactic(auto)]

ghost use Rattle.rules.specs.State.{mem};
ghost use Rattle.rules.specs.Answers.{got_of};
ghost use Rattle.peek.specs.Peek.{Peeked};

use answers::{Denied, Taken};

// Makes the get, and puts back what it took.
pub fn get(
    n: usize,
    t: usize,
    rows: &mut [u64],
    entries: &mut [u16],
    row: usize,
    order: usize,
) -> Result<Taken, Denied>
    ensures { Peeked n t (mem rows.old entries.old) row order (got_of result) (mem rows.new entries.new) }
{
    let taken = lower::get(n, t, rows, entries, row, order)?;
    // It was just taken, so it is given back.
    let _ = lower::put(n, t, rows, entries, taken.frame, order);
    Ok(taken)
}
