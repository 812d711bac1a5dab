// The lower level: document 01's calls on N frames in trees of T huge frames, over lent rows and entries. Each takes any
// numbers and any contents, and a call that is refused writes nothing. Each is the routine of `lower_h` at huge order 9.
#![tactic(auto)]

ghost use Rattle.base.specs.Refused.{code_of};
ghost use Rattle.base.specs.Size.{huge_order};
ghost use Rattle.bitfield_rules.specs.Calls.{answered_of};
ghost use Rattle.rules.specs.State.{mem};
ghost use Rattle.rules.specs.Answers.{got_of, stats_of};
ghost use Rattle.rules.specs.Ensured.{Gets, GetsAt, Puts, AsksFree, TellsStats, TellsStatsAt, FreesAll, ReservesAll};

use answers::{Denied, Free, Taken};
use base::Refusal;

// Starts with all frames below N free.
pub fn free_all(n: usize, t: usize, rows: &mut [u64], entries: &mut [u16]) -> Result<(), Refusal>
    ensures { FreesAll huge_order n t (mem rows.old entries.old) (code_of result) (mem rows.new entries.new) }
{
    lower_h::free_all(base::HUGE_ORDER, n, t, rows, entries)
}

// Starts with all frames below N held.
pub fn reserve_all(n: usize, t: usize, rows: &mut [u64], entries: &mut [u16]) -> Result<(), Refusal>
    ensures { ReservesAll huge_order n t (mem rows.old entries.old) (code_of result) (mem rows.new entries.new) }
{
    lower_h::reserve_all(base::HUGE_ORDER, n, t, rows, entries)
}

// Takes the first free block of 2^order frames in the start row's tree.
pub fn get(
    n: usize,
    t: usize,
    rows: &mut [u64],
    entries: &mut [u16],
    row: usize,
    order: usize,
) -> Result<Taken, Denied>
    ensures { Gets huge_order n t (mem rows.old entries.old) row order (got_of result) (mem rows.new entries.new) }
{
    lower_h::get(base::HUGE_ORDER, n, t, rows, entries, row, order)
}

// Takes the block at a frame, or refuses.
pub fn get_at(
    n: usize,
    t: usize,
    rows: &mut [u64],
    entries: &mut [u16],
    frame: usize,
    order: usize,
) -> Result<Taken, Denied>
    ensures { GetsAt huge_order n t (mem rows.old entries.old) frame order (got_of result) (mem rows.new entries.new) }
{
    lower_h::get_at(base::HUGE_ORDER, n, t, rows, entries, frame, order)
}

// Gives a block back.
pub fn put(
    n: usize,
    t: usize,
    rows: &mut [u64],
    entries: &mut [u16],
    frame: usize,
    order: usize,
) -> Result<(), Refusal>
    ensures { Puts huge_order n t (mem rows.old entries.old) frame order (code_of result) (mem rows.new entries.new) }
{
    lower_h::put(base::HUGE_ORDER, n, t, rows, entries, frame, order)
}

// Whether every frame of a block is free.
pub fn is_free(
    n: usize,
    t: usize,
    rows: &[u64],
    entries: &[u16],
    frame: usize,
    order: usize,
) -> Result<bool, Refusal>
    ensures { AsksFree huge_order n t (mem rows.now entries.now) frame order (answered_of result) }
{
    lower_h::is_free(base::HUGE_ORDER, n, t, rows, entries, frame, order)
}

// Free frames, huge frames and trees.
pub fn stats(n: usize, t: usize, rows: &[u64], entries: &[u16]) -> Result<Free, Refusal>
    ensures { TellsStats huge_order n t (mem rows.now entries.now) (stats_of result) }
{
    lower_h::stats(base::HUGE_ORDER, n, t, rows, entries)
}

// The same at a frame, its huge frame or its tree, as the order says.
pub fn stats_at(
    n: usize,
    t: usize,
    rows: &[u64],
    entries: &[u16],
    frame: usize,
    order: usize,
) -> Result<Free, Refusal>
    ensures { TellsStatsAt huge_order n t (mem rows.now entries.now) frame order (stats_of result) }
{
    lower_h::stats_at(base::HUGE_ORDER, n, t, rows, entries, frame, order)
}
