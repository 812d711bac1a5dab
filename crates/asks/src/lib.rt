// The calls of `trace` that only read, those of the lines Q, S, T and A, and their answers as it prints them. There is no `From`, as
// neither a `Result` nor `Answer` belongs to this crate; each kind of answer prints other numbers.
#![tactic(auto)]

ghost use Rattle.std.specs.Prelude.{◌≡◌};
ghost use Rattle.base.specs.Size.{huge_order};
ghost use Rattle.bitfield_rules.specs.Calls.{answered_of};
ghost use Rattle.rules.specs.Answers.{stats_of, fault_of};
ghost use Rattle.rules.specs.State.{mem};
ghost use Rattle.asks.specs.Turn as spec;

use answers::{Faulty, Free};
use base::Refusal;
use lines::{Answer, Fields, Question};

// What a line leaves beside the memory: N, T, and the answer that it prints.
#[derive(Clone, Copy)]
pub struct Turn {
    pub n: usize,
    pub t: usize,
    pub answer: Answer,
}

// What a bad line prints: 9 alone.
pub const BAD: Answer = Answer {
    code: 9,
    fields: Fields::Nothing,
};

// Whether a block is free: 1 or 0.
pub fn of_free(free: Result<bool, Refusal>) -> Answer
    ensures { result ≡ spec.of_free (answered_of free) }
{
    match free {
        Ok(yes) => Answer {
            code: 0,
            fields: Fields::One(usize::from(yes)),
        },
        Err(refusal) => Answer {
            code: refusal.number(),
            fields: Fields::One(0),
        },
    }
}

// The three statistics.
pub fn of_stats(stats: Result<Free, Refusal>) -> Answer
    ensures { result ≡ spec.of_stats (stats_of stats) }
{
    match stats {
        Ok(free) => Answer {
            code: 0,
            fields: Fields::Three(free.frames, free.huge, free.trees),
        },
        Err(refusal) => Answer {
            code: refusal.number(),
            fields: Fields::Three(0, 0, 0),
        },
    }
}

// The first faulty huge frame and what is wrong with it, or zeros.
fn of_fault(fault: Result<Option<Faulty>, Refusal>) -> Answer
    ensures { result ≡ spec.of_fault (fault_of fault) }
{
    match fault {
        Ok(Some(faulty)) => Answer {
            code: 0,
            fields: Fields::Two(faulty.huge, faulty.flaw.number() as usize),
        },
        Ok(None) => Answer {
            code: 0,
            fields: Fields::Two(0, 0),
        },
        Err(refusal) => Answer {
            code: refusal.number(),
            fields: Fields::Two(0, 0),
        },
    }
}

// Makes a call that only reads.
#[tactic(auto, unfolding(crate::specs::Turn::asked))]
pub fn ask(n: usize, t: usize, rows: &[u64], entries: &[u16], question: Question) -> Answer
    ensures { result ≡ spec.asked huge_order n t (mem rows.now entries.now) question }
{
    match question {
        Question::IsFree(frame, order) => {
            of_free(lower::is_free(n, t, rows, entries, frame, order))
        }
        Question::StatsOfAll => of_stats(lower::stats(n, t, rows, entries)),
        Question::StatsAt(frame, order) => {
            of_stats(lower::stats_at(n, t, rows, entries, frame, order))
        }
        Question::Audit => of_fault(staff::audit(n, t, rows, entries)),
    }
}
