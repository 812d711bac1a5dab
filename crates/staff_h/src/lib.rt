// The calls of `staff` over the huge order h, for callers that have it as a value.
#![tactic(auto)]

ghost use Rattle.std.specs.Prelude.{◌≡◌, replicate, OnErr};
ghost use Rattle.base.specs.Refused.{code_of};
ghost use Rattle.rules.specs.State.{mem};
ghost use Rattle.rules.specs.Room.{orders};
ghost use Rattle.rules.specs.Answers.{fault_of, recovered_of, why_of};
ghost use Rattle.rules.specs.Ensured.{FindsFault, TellsWhyGet, TellsWhyGetAt, TellsWhyPut, TellsRoom, LendsRun, Recovers};

use answers::{Cause, Faulty, Mended};
use base::{HugeOrder, Refusal};

pub fn audit(
    h: HugeOrder,
    n: usize,
    t: usize,
    rows: &[u64],
    entries: &[u16],
) -> Result<Option<Faulty>, Refusal>
    ensures { FindsFault h.order n t (mem rows.now entries.now) (fault_of result) }
{
    let t = refuse::sizes(h, n, t, rows.len(), entries.len())?;
    Ok(audit::all(h, n, t, rows, entries))
}

pub fn recover(
    h: HugeOrder,
    n: usize,
    t: usize,
    rows: &mut [u64],
    entries: &mut [u16],
) -> Result<Mended, Refusal>
    ensures { Recovers h.order n t (mem rows.old entries.old) (recovered_of result) (mem rows.new entries.new) }
{
    let t = refuse::sizes(h, n, t, rows.len(), entries.len())?;
    recover::all(h, n, t, rows, entries)
}

pub fn why_get(
    h: HugeOrder,
    n: usize,
    t: usize,
    rows: &[u64],
    entries: &[u16],
    row: usize,
    order: usize,
) -> Result<Option<Cause>, Refusal>
    ensures { TellsWhyGet h.order n t (mem rows.now entries.now) row order (why_of result) }
{
    let t = refuse::start(h, n, t, rows.len(), entries.len(), row, order)?;
    if !why::sound(h, n, t, rows, entries, row * 64) {
        return Err(Refusal::Damage);
    }
    Ok(why::get(h, t, rows, entries, row * 64, order))
}

// The checks of this call and of the next are three lines that read as the request states them.
pub fn why_get_at(
    h: HugeOrder,
    n: usize,
    t: usize,
    rows: &[u64],
    entries: &[u16],
    frame: usize,
    order: usize,
) -> Result<Option<Cause>, Refusal>
    ensures { TellsWhyGetAt h.order n t (mem rows.now entries.now) frame order (why_of result) }
{
    let t = refuse::block(h, n, t, rows.len(), entries.len(), frame, order)?;
    if !why::sound(h, n, t, rows, entries, frame) {
        return Err(Refusal::Damage);
    }
    Ok(why::get_at(h, rows, entries, frame, order))
}

pub fn why_put(
    h: HugeOrder,
    n: usize,
    t: usize,
    rows: &[u64],
    entries: &[u16],
    frame: usize,
    order: usize,
) -> Result<Option<Cause>, Refusal>
    ensures { TellsWhyPut h.order n t (mem rows.now entries.now) frame order (why_of result) }
{
    let t = refuse::block(h, n, t, rows.len(), entries.len(), frame, order)?;
    if !why::sound(h, n, t, rows, entries, frame) {
        return Err(Refusal::Damage);
    }
    Ok(why::put(h, rows, entries, frame, order))
}

// Fills in counts that are 0, and leaves them so where it is refused.
pub fn room(
    h: HugeOrder,
    n: usize,
    t: usize,
    rows: &[u64],
    entries: &[u16],
    frame: usize,
    counts: &mut [usize],
) -> Result<(), Refusal>
    requires { counts.old ≡ replicate (orders h.order) 0 }
    ensures tells { TellsRoom h.order n t (mem rows.now entries.now) frame (code_of result) counts.new }
    ensures kept { OnErr result (counts.new ≡ counts.old) }
{
    let t = refuse::frame(h, n, t, rows.len(), entries.len(), frame)?;
    room::counts(h, t, entries, frame, counts);
    Ok(())
}

pub fn tree_run<'a>(
    h: HugeOrder,
    n: usize,
    t: usize,
    rows: &[u64],
    entries: &'a [u16],
    frame: usize,
) -> &'a [u16]
    ensures { LendsRun h.order n t (mem rows.now entries.now) frame result.now }
{
    match refuse::frame(h, n, t, rows.len(), entries.len(), frame) {
        Ok(t) => {
            let first = shape::tree_first(h, t, frame);
            &entries[first..first + t.huge]
        }
        Err(_) => &entries[..0],
    }
}
