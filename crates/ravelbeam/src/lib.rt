// The calls for programs in C and Rust: numbers and slices alone, further results through lent numbers, which every call
// writes. Each has its call's own contract, or one of specs/Ensured where its numbers are others.
#![tactic(auto)]

ghost use Rattle.std.specs.Prelude.{◌≡◌, true};
ghost use Rattle.base.specs.Refused.{code_of};
ghost use Rattle.base.specs.Size.{huge_order};
ghost use Rattle.rules.specs.Numbers.{is_tree, tree_at};
ghost use Rattle.rules.specs.State.{mem};
ghost use Rattle.rules.specs.Get.{got};
ghost use Rattle.rules.specs.Queries.{statistics};
ghost use Rattle.bitfield_rules.specs.Calls.{placed, placed_of, zero_count};
ghost use Rattle.bitfield_rules.specs.Ensured.{Sets, Fills, Toggles, CountsZeros, FindsZeros, SetsFirstZeros};
ghost use Rattle.rules.specs.Ensured.{Gets, GetsAt, Puts, TellsStats, TellsStatsAt, FindsFault, TellsWhyGet, TellsWhyGetAt, TellsWhyPut, TellsRoom, FreesAll, ReservesAll, Recovers};
ghost use Rattle.rules.specs.Audit.{fault};
ghost use Rattle.rules.specs.Recover.{recovered};
ghost use Rattle.rules.specs.Why.{why};
ghost use Rattle.rules.specs.Answers.{got_of, stats_of, why_of};
ghost use Rattle.ravelbeam.specs.Flag.{is_yes};
ghost use Rattle.ravelbeam.specs.Ensured.{FindsNumbers, FlagsZero, FlagsFree, PlacesRun};

use answers::{Cause, Denied, Free, Taken};
use base::Refusal;
use shape::TreeSize;

// The number of an answer: 0 where it is done.
fn code<T: Copy>(answer: Result<T, Refusal>) -> u32
    ensures { result ≡ code_of answer }
{
    match answer {
        Ok(_) => 0,
        Err(refusal) => refusal.number(),
    }
}

// The numbers of a get.
fn take(answer: Result<Taken, Denied>, frame: &mut usize, probes: &mut usize) -> u32
    ensures { got result frame.new probes.new ≡ got_of answer }
{
    match answer {
        Ok(taken) => {
            *frame = taken.frame;
            *probes = taken.probes;
            0
        }
        Err(denied) => {
            *frame = 0;
            *probes = denied.probes;
            denied.refusal.number()
        }
    }
}

// The numbers of a search.
fn find(answer: Result<usize, Refusal>, place: &mut usize) -> u32
    ensures { placed result place.new ≡ placed_of answer }
{
    match answer {
        Ok(found) => {
            *place = found;
            0
        }
        Err(refusal) => {
            *place = 0;
            refusal.number()
        }
    }
}

// The numbers of what is free.
fn count(
    answer: Result<Free, Refusal>,
    frames: &mut usize,
    huge: &mut usize,
    trees: &mut usize,
) -> u32
    ensures { statistics result frames.new huge.new trees.new ≡ stats_of answer }
{
    let free = answer.unwrap_or_default();
    *frames = free.frames;
    *huge = free.huge;
    *trees = free.trees;
    code(answer)
}

// The numbers of why a request is turned down.
fn explain(answer: Result<Option<Cause>, Refusal>, reason: &mut u32, frame: &mut usize) -> u32
    ensures { why result reason.new frame.new ≡ why_of answer }
{
    *reason = 0;
    *frame = 0;
    if let Ok(Some(cause)) = answer {
        *reason = cause.number();
        *frame = cause.frame();
    }
    code(answer)
}

// The first entry of a frame's tree, where T is a tree size; it is asked only past the checks.
fn first_entry(t: usize, frame: usize) -> usize
    ensures { is_tree t ≡ true → result ≡ tree_at huge_order t frame }
{
    match TreeSize::new(t) {
        Some(size) => shape::tree_first(base::HUGE_ORDER, size, frame),
        None => 0,
    }
}

// The lowest clear block of a row, and the row with the block set.
#[unsafe(no_mangle)]
pub extern "C" fn rb_first_zeros_aligned(
    v: u64,
    order: usize,
    place: &mut usize,
    row: &mut u64,
) -> u32
    ensures { FindsNumbers v order result place.new row.new }
{
    match row::first_zeros_aligned(v, order) {
        Ok(found) => {
            *place = found.place;
            *row = found.row;
            0
        }
        Err(refusal) => {
            *place = 0;
            *row = 0;
            refusal.number()
        }
    }
}

// Overwrites the bits from start up to end.
#[unsafe(no_mangle)]
pub extern "C" fn rb_bitfield_set(rows: &mut [u64], start: usize, end: usize, value: u32) -> u32
    ensures { Sets huge_order rows.old start end (is_yes value) result rows.new }
{
    code(bitfield::set(rows, start, end, value != 0))
}

// Turns the bits of a block, where all are as expected.
#[unsafe(no_mangle)]
pub extern "C" fn rb_bitfield_toggle(
    rows: &mut [u64],
    place: usize,
    order: usize,
    expected: u32,
) -> u32
    ensures { Toggles huge_order rows.old place order (is_yes expected) result rows.new }
{
    code(bitfield::toggle(rows, place, order, expected != 0))
}

// Whether the bits of a block are all clear.
#[unsafe(no_mangle)]
pub extern "C" fn rb_bitfield_is_zero(
    rows: &[u64],
    place: usize,
    order: usize,
    yes: &mut u32,
) -> u32
    ensures { FlagsZero huge_order rows.now place order result yes.new }
{
    let answer = bitfield::is_zero(rows, place, order);
    *yes = answer.unwrap_or(false) as u32;
    code(answer)
}

// The first clear block in the search order, with nothing written.
#[unsafe(no_mangle)]
pub extern "C" fn rb_bitfield_first_zeros(
    rows: &[u64],
    start_row: usize,
    order: usize,
    place: &mut usize,
) -> u32
    ensures { FindsZeros huge_order rows.now start_row order (placed result place.new) }
{
    find(bitfield::first_zeros(rows, start_row, order), place)
}

// Sets the first clear block in the search order.
#[unsafe(no_mangle)]
pub extern "C" fn rb_bitfield_set_first_zeros(
    rows: &mut [u64],
    start_row: usize,
    order: usize,
    place: &mut usize,
) -> u32
    ensures { SetsFirstZeros huge_order rows.old start_row order (placed result place.new) rows.new }
{
    find(bitfield::set_first_zeros(rows, start_row, order), place)
}

// Overwrites every bit.
#[unsafe(no_mangle)]
pub extern "C" fn rb_bitfield_fill(rows: &mut [u64], value: u32) -> u32
    ensures { Fills huge_order rows.old (is_yes value) result rows.new }
{
    code(bitfield::fill(rows, value != 0))
}

// The number of clear bits.
#[unsafe(no_mangle)]
pub extern "C" fn rb_bitfield_count_zeros(rows: &[u64], zeros: &mut usize) -> u32
    ensures { CountsZeros huge_order rows.now (zero_count result zeros.new) }
{
    let counted = bitfield::count_zeros(rows);
    *zeros = counted.unwrap_or(0);
    code(counted)
}

// Starts with all frames below N free.
#[unsafe(no_mangle)]
pub extern "C" fn rb_free_all(n: usize, t: usize, rows: &mut [u64], entries: &mut [u16]) -> u32
    ensures { FreesAll huge_order n t (mem rows.old entries.old) result (mem rows.new entries.new) }
{
    code(lower::free_all(n, t, rows, entries))
}

// Starts with all frames below N held.
#[unsafe(no_mangle)]
pub extern "C" fn rb_reserve_all(n: usize, t: usize, rows: &mut [u64], entries: &mut [u16]) -> u32
    ensures { ReservesAll huge_order n t (mem rows.old entries.old) result (mem rows.new entries.new) }
{
    code(lower::reserve_all(n, t, rows, entries))
}

// Takes the first free block of the start row's tree.
#[unsafe(no_mangle)]
pub extern "C" fn rb_get(
    n: usize,
    t: usize,
    rows: &mut [u64],
    entries: &mut [u16],
    row: usize,
    order: usize,
    frame: &mut usize,
    probes: &mut usize,
) -> u32
    ensures { Gets huge_order n t (mem rows.old entries.old) row order (got result frame.new probes.new) (mem rows.new entries.new) }
{
    let answer = lower::get(n, t, rows, entries, row, order);
    take(answer, frame, probes)
}

// Takes the block at a frame.
#[unsafe(no_mangle)]
pub extern "C" fn rb_get_at(
    n: usize,
    t: usize,
    rows: &mut [u64],
    entries: &mut [u16],
    frame: usize,
    order: usize,
    taken: &mut usize,
    probes: &mut usize,
) -> u32
    ensures { GetsAt huge_order n t (mem rows.old entries.old) frame order (got result taken.new probes.new) (mem rows.new entries.new) }
{
    let answer = lower::get_at(n, t, rows, entries, frame, order);
    take(answer, taken, probes)
}

// Gives a block back.
#[unsafe(no_mangle)]
pub extern "C" fn rb_put(
    n: usize,
    t: usize,
    rows: &mut [u64],
    entries: &mut [u16],
    frame: usize,
    order: usize,
) -> u32
    ensures { Puts huge_order n t (mem rows.old entries.old) frame order result (mem rows.new entries.new) }
{
    code(lower::put(n, t, rows, entries, frame, order))
}

// Whether every frame of a block is free.
#[unsafe(no_mangle)]
pub extern "C" fn rb_is_free(
    n: usize,
    t: usize,
    rows: &[u64],
    entries: &[u16],
    frame: usize,
    order: usize,
    yes: &mut u32,
) -> u32
    ensures { FlagsFree huge_order n t (mem rows.now entries.now) frame order result yes.new }
{
    let answer = lower::is_free(n, t, rows, entries, frame, order);
    *yes = answer.unwrap_or(false) as u32;
    code(answer)
}

// Free frames, huge frames that are free whole, and trees that are.
#[unsafe(no_mangle)]
pub extern "C" fn rb_stats(
    n: usize,
    t: usize,
    rows: &[u64],
    entries: &[u16],
    free_frames: &mut usize,
    free_huge: &mut usize,
    free_trees: &mut usize,
) -> u32
    ensures { TellsStats huge_order n t (mem rows.now entries.now) (statistics result free_frames.new free_huge.new free_trees.new) }
{
    let answer = lower::stats(n, t, rows, entries);
    count(answer, free_frames, free_huge, free_trees)
}

// The same at a frame, its huge frame or its tree, as the order says.
#[unsafe(no_mangle)]
pub extern "C" fn rb_stats_at(
    n: usize,
    t: usize,
    rows: &[u64],
    entries: &[u16],
    frame: usize,
    order: usize,
    free_frames: &mut usize,
    free_huge: &mut usize,
    free_trees: &mut usize,
) -> u32
    ensures { TellsStatsAt huge_order n t (mem rows.now entries.now) frame order (statistics result free_frames.new free_huge.new free_trees.new) }
{
    let answer = lower::stats_at(n, t, rows, entries, frame, order);
    count(answer, free_frames, free_huge, free_trees)
}

// The first faulty huge frame, and why it is.
#[unsafe(no_mangle)]
pub extern "C" fn rb_audit(
    n: usize,
    t: usize,
    rows: &[u64],
    entries: &[u16],
    huge: &mut usize,
    reason: &mut u32,
) -> u32
    ensures { FindsFault huge_order n t (mem rows.now entries.now) (fault result huge.new reason.new) }
{
    *huge = 0;
    *reason = 0;
    match staff::audit(n, t, rows, entries) {
        Ok(None) => 0,
        Ok(Some(faulty)) => {
            *huge = faulty.huge;
            *reason = faulty.flaw.number();
            0
        }
        Err(refusal) => refusal.number(),
    }
}

// Puts counts right by the bits, and clears the bits under a mark.
#[unsafe(no_mangle)]
pub extern "C" fn rb_recover(
    n: usize,
    t: usize,
    rows: &mut [u64],
    entries: &mut [u16],
    entries_changed: &mut usize,
    bitfields_changed: &mut usize,
) -> u32
    ensures { Recovers huge_order n t (mem rows.old entries.old) (recovered result entries_changed.new bitfields_changed.new) (mem rows.new entries.new) }
{
    let recovered = staff::recover(n, t, rows, entries);
    let mended = recovered.unwrap_or_default();
    *entries_changed = mended.entries;
    *bitfields_changed = mended.bitfields;
    code(recovered)
}

// Why a get from a start row would be turned down.
#[unsafe(no_mangle)]
pub extern "C" fn rb_why_get(
    n: usize,
    t: usize,
    rows: &[u64],
    entries: &[u16],
    row: usize,
    order: usize,
    reason: &mut u32,
    frame: &mut usize,
) -> u32
    ensures { TellsWhyGet huge_order n t (mem rows.now entries.now) row order (why result reason.new frame.new) }
{
    let answer = staff::why_get(n, t, rows, entries, row, order);
    explain(answer, reason, frame)
}

// Why a get of the block at a frame would be.
#[unsafe(no_mangle)]
pub extern "C" fn rb_why_get_at(
    n: usize,
    t: usize,
    rows: &[u64],
    entries: &[u16],
    frame: usize,
    order: usize,
    reason: &mut u32,
    at: &mut usize,
) -> u32
    ensures { TellsWhyGetAt huge_order n t (mem rows.now entries.now) frame order (why result reason.new at.new) }
{
    let answer = staff::why_get_at(n, t, rows, entries, frame, order);
    explain(answer, reason, at)
}

// Why a put of the block at a frame would be.
#[unsafe(no_mangle)]
pub extern "C" fn rb_why_put(
    n: usize,
    t: usize,
    rows: &[u64],
    entries: &[u16],
    frame: usize,
    order: usize,
    reason: &mut u32,
    at: &mut usize,
) -> u32
    ensures { TellsWhyPut huge_order n t (mem rows.now entries.now) frame order (why result reason.new at.new) }
{
    let answer = staff::why_put(n, t, rows, entries, frame, order);
    explain(answer, reason, at)
}

// The room of a frame's tree: nineteen counts.
#[unsafe(no_mangle)]
pub extern "C" fn rb_room(
    n: usize,
    t: usize,
    rows: &[u64],
    entries: &[u16],
    frame: usize,
    counts: &mut [usize; 19],
) -> u32
    ensures { TellsRoom huge_order n t (mem rows.now entries.now) frame result counts.new }
{
    let room = staff::room(n, t, rows, entries, frame);
    let filled = room.counts;
    *counts = filled;
    room.code
}

// The entries of a frame's tree: where they begin among those lent, and how many they are.
#[unsafe(no_mangle)]
pub extern "C" fn rb_tree_run(
    n: usize,
    t: usize,
    rows: &[u64],
    entries: &[u16],
    frame: usize,
    offset: &mut usize,
    length: &mut usize,
) -> u32
    ensures { PlacesRun huge_order n t (mem rows.now entries.now) frame result offset.new length.new }
{
    let run = staff::tree_run(n, t, rows, entries, frame);
    *length = run.len();
    match staff::tree_run_code(n, t, rows, entries, frame) {
        Ok(()) => {
            *offset = first_entry(t, frame);
            0
        }
        Err(refusal) => {
            *offset = 0;
            refusal.number()
        }
    }
}
