// The lines of `trace` that write: the calls of G, P, F and R, and a start, I. Their answers are made as in `asks`.
#![tactic(auto)]

ghost use Rattle.std.specs.Prelude.{◌≡◌};
ghost use Rattle.base.specs.Code.{out};
ghost use Rattle.base.specs.Refused.{code_of};
ghost use Rattle.base.specs.Size.{huge_order};
ghost use Rattle.rules.specs.Answers.{got_of, recovered_of};
ghost use Rattle.rules.specs.State.{mem};
ghost use Rattle.asks.specs.Turn as spec;

use answers::{Denied, Mended, Taken};
use asks::Turn;
use base::Refusal;
use lines::{Answer, Change, Fields};
use rules::Init;

// A call that answers nothing beside its code.
fn of_done(done: Result<(), Refusal>) -> Answer
    ensures { result ≡ spec.of_code (code_of done) }
{
    let code = match done {
        Ok(()) => 0,
        Err(refusal) => refusal.number(),
    };
    Answer {
        code,
        fields: Fields::Nothing,
    }
}

// The frame, or 0, and the probes.
fn of_got(got: Result<Taken, Denied>) -> Answer
    ensures { result ≡ spec.of_got (got_of got) }
{
    match got {
        Ok(taken) => Answer {
            code: 0,
            fields: Fields::Two(taken.frame, taken.probes),
        },
        Err(denied) => Answer {
            code: denied.refusal.number(),
            fields: Fields::Two(0, denied.probes),
        },
    }
}

// How many entries and bitfields a recovery changed.
fn of_recovered(recovered: Result<Mended, Refusal>) -> Answer
    ensures { result ≡ spec.of_recovered (recovered_of recovered) }
{
    match recovered {
        Ok(mended) => Answer {
            code: 0,
            fields: Fields::Two(mended.entries, mended.bitfields),
        },
        Err(refusal) => Answer {
            code: refusal.number(),
            fields: Fields::Two(0, 0),
        },
    }
}

// Makes a call that may write.
#[tactic(auto, unfolding(asks::specs::Turn::changed))]
pub fn change(n: usize, t: usize, rows: &mut [u64], entries: &mut [u16], call: Change) -> Answer
    ensures { out result (mem rows.new entries.new) ≡ spec.changed huge_order n t (mem rows.old entries.old) call }
{
    match call {
        Change::Get(row, order) => of_got(lower::get(n, t, rows, entries, row, order)),
        Change::GetAt(frame, order) => of_got(lower::get_at(n, t, rows, entries, frame, order)),
        Change::Put(frame, order) => of_done(lower::put(n, t, rows, entries, frame, order)),
        Change::Recover => of_recovered(staff::recover(n, t, rows, entries)),
    }
}

// All frames free, or all held.
#[tactic(auto, unfolding(asks::specs::Turn::filled))]
fn fill(
    n: usize,
    t: usize,
    init: Init,
    rows: &mut [u64],
    entries: &mut [u16],
) -> Result<(), Refusal>
    ensures { out (code_of result) (mem rows.new entries.new) ≡ spec.filled huge_order n t init (mem rows.old entries.old) }
{
    match init {
        Init::FreeAll => lower::free_all(n, t, rows, entries),
        Init::AllocAll => lower::reserve_all(n, t, rows, entries),
    }
}

// Makes a start of frames in trees: one that is refused keeps N and T.
pub fn start(
    n: usize,
    t: usize,
    rows: &mut [u64],
    entries: &mut [u16],
    frames: usize,
    tree: usize,
    init: Init,
) -> Turn
    ensures { out result (mem rows.new entries.new) ≡ spec.started huge_order n t (mem rows.old entries.old) frames tree init }
{
    let done = fill(frames, tree, init, rows, entries);
    let answer = of_done(done);
    match done {
        Ok(()) => Turn {
            n: frames,
            t: tree,
            answer,
        },
        Err(_) => Turn { n, t, answer },
    }
}
