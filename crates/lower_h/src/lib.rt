// The calls of `lower` over the huge order h, for callers that have it as a value.
// Some are always inlined, since a Result with a number in it comes back through memory.
#![tactic(auto)]

ghost use Rattle.base.specs.Refused.{code_of};
ghost use Rattle.bitfield_rules.specs.Calls.{answered_of};
ghost use Rattle.rules.specs.State.{mem};
ghost use Rattle.rules.specs.Answers.{got_of, stats_of};
ghost use Rattle.rules.specs.Ensured.{Gets, GetsAt, Puts, AsksFree, TellsStats, TellsStatsAt, FreesAll, ReservesAll};

use answers::{Denied, Free, Taken};
use base::{HugeOrder, Refusal};

pub fn free_all(
    h: HugeOrder,
    n: usize,
    t: usize,
    rows: &mut [u64],
    entries: &mut [u16],
) -> Result<(), Refusal>
    ensures { FreesAll h.order n t (mem rows.old entries.old) (code_of result) (mem rows.new entries.new) }
{
    let t = refuse::sizes(h, n, t, rows.len(), entries.len())?;
    starts::free_all(h, n, t, rows, entries);
    Ok(())
}

pub fn reserve_all(
    h: HugeOrder,
    n: usize,
    t: usize,
    rows: &mut [u64],
    entries: &mut [u16],
) -> Result<(), Refusal>
    ensures { ReservesAll h.order n t (mem rows.old entries.old) (code_of result) (mem rows.new entries.new) }
{
    let t = refuse::sizes(h, n, t, rows.len(), entries.len())?;
    starts::reserve_all(h, n, t, rows, entries);
    Ok(())
}

#[inline(always)]
pub fn get(
    h: HugeOrder,
    n: usize,
    t: usize,
    rows: &mut [u64],
    entries: &mut [u16],
    row: usize,
    order: usize,
) -> Result<Taken, Denied>
    ensures { Gets h.order n t (mem rows.old entries.old) row order (got_of result) (mem rows.new entries.new) }
{
    let t = refuse::start(h, n, t, rows.len(), entries.len(), row, order)?;
    if order < h.order {
        return visits::get(h, n, t, rows, entries, row, order);
    }
    huge::get(h, n, t, entries, row, order)
}

pub fn get_at(
    h: HugeOrder,
    n: usize,
    t: usize,
    rows: &mut [u64],
    entries: &mut [u16],
    frame: usize,
    order: usize,
) -> Result<Taken, Denied>
    ensures { GetsAt h.order n t (mem rows.old entries.old) frame order (got_of result) (mem rows.new entries.new) }
{
    refuse::block(h, n, t, rows.len(), entries.len(), frame, order)?;
    if order < h.order {
        return small::get_at(h, rows, entries, frame, order);
    }
    huge::get_at(h, entries, frame, order)
}

pub fn put(
    h: HugeOrder,
    n: usize,
    t: usize,
    rows: &mut [u64],
    entries: &mut [u16],
    frame: usize,
    order: usize,
) -> Result<(), Refusal>
    ensures { Puts h.order n t (mem rows.old entries.old) frame order (code_of result) (mem rows.new entries.new) }
{
    refuse::block(h, n, t, rows.len(), entries.len(), frame, order)?;
    if order < h.order {
        return small::put(h, rows, entries, frame, order);
    }
    huge::put(h, entries, frame, order)
}

pub fn is_free(
    h: HugeOrder,
    n: usize,
    t: usize,
    rows: &[u64],
    entries: &[u16],
    frame: usize,
    order: usize,
) -> Result<bool, Refusal>
    ensures { AsksFree h.order n t (mem rows.now entries.now) frame order (answered_of result) }
{
    refuse::block(h, n, t, rows.len(), entries.len(), frame, order)?;
    if order < h.order {
        return Ok(small::is_free(h, rows, entries, frame, order));
    }
    Ok(huge::is_free(h, entries, frame, order))
}

pub fn stats(
    h: HugeOrder,
    n: usize,
    t: usize,
    rows: &[u64],
    entries: &[u16],
) -> Result<Free, Refusal>
    ensures { TellsStats h.order n t (mem rows.now entries.now) (stats_of result) }
{
    let t = refuse::sizes(h, n, t, rows.len(), entries.len())?;
    Ok(stats::all(h, n, t, entries))
}

pub fn stats_at(
    h: HugeOrder,
    n: usize,
    t: usize,
    rows: &[u64],
    entries: &[u16],
    frame: usize,
    order: usize,
) -> Result<Free, Refusal>
    ensures { TellsStatsAt h.order n t (mem rows.now entries.now) frame order (stats_of result) }
{
    let t = refuse::frame(h, n, t, rows.len(), entries.len(), frame)?;
    Ok(stats::at(h, t, rows, entries, frame, order))
}
