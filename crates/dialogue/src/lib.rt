// A dialogue with `trace`: lines of calls go in as bytes, in parts of any size, and an answer comes out for each line.
// Nothing is read or written here: input and output are lent.
#![tactic(auto)]

ghost use Rattle.std.specs.Prelude.{◌≡◌, ◌++◌, ◌+◌, ◌≤◌, ◌<◌, length, take, MatchOption};
ghost use Rattle.base.specs.Code.{out};
ghost use Rattle.base.specs.Size.{huge_order};
ghost use Rattle.rules.specs.State.{mem};
ghost use Rattle.lines.specs.Answer.{text_to};
ghost use Rattle.asks.specs.Turn.{answered};
ghost use Rattle.lines.specs.Bytes.{LF};
ghost use Rattle.dialogue.specs.Bytes.{index_of};
ghost use Rattle.dialogue.specs.Dialogue.{finished, printed};
ghost use Rattle.dialogue.specs.Feeds.{held, Ready, replied, Feeds, Serves};

use asks::Turn;
use lines::{Answer, Line};

// The most bytes that are kept of a line: one more than a good line has.
pub const KEPT_MAX: usize = 65;

// The most bytes of an answer, with its LF.
pub const ANSWER_MAX: usize = 84;

// N and T of the last start that was done, 0 before any, as a call is then refused for its N; and how many bytes are kept of a
// line that has not ended. The bytes lie in an array that is lent, since nothing here allocates.
#[derive(Clone, Copy)]
pub struct State {
    pub n: usize,
    pub t: usize,
    pub kept: usize,
}

// What a part of the input leaves: the state, how many of its bytes were used, and the answer of a line, if one has ended.
#[derive(Clone, Copy)]
pub struct Fed {
    pub state: State,
    pub used: usize,
    pub reply: Option<Answer>,
}

// The same with all answers that fitted in a text: where they end in it.
#[derive(Clone, Copy)]
pub struct Served {
    pub state: State,
    pub used: usize,
    pub end: usize,
}

// Makes the call of a line, or none where it is bad.
#[tactic(auto, unfolding(asks::specs::Turn::answered))]
fn take(n: usize, t: usize, rows: &mut [u64], entries: &mut [u16], line: Option<Line>) -> Turn
    ensures { out result (mem rows.new entries.new) ≡ answered huge_order n t (mem rows.old entries.old) line }
{
    match line {
        Some(Line::Starts(frames, tree, init)) => {
            changes::start(n, t, rows, entries, frames, tree, init)
        }
        Some(Line::Changes(call)) => Turn {
            n,
            t,
            answer: changes::change(n, t, rows, entries, call),
        },
        Some(Line::Asks(question)) => Turn {
            n,
            t,
            answer: asks::ask(n, t, rows, entries, question),
        },
        None => Turn {
            n,
            t,
            answer: asks::BAD,
        },
    }
}

// Keeps a part of a line behind what is kept of it, up to sixty-five bytes: a longer line is bad, whatever follows.
fn keep(line: &mut [u8], kept: usize, part: &[u8]) -> usize
    requires { (kept ≤ 65) × (65 ≤ length line.old) }
    ensures { (result ≤ 65) × (take result line.new ≡ take 65 (take kept line.old ++ part.now)) }
{
    let n = part.len().min(KEPT_MAX - kept);
    let end = kept + n;
    line[kept..end].copy_from_slice(&part[..n]);
    end
}

// Where the first LF of the input stands.
fn find(input: &[u8]) -> Option<usize>
    ensures { MatchOption result (index_of LF input.now ≡ length input.now) (λ end. (end ≡ index_of LF input.now) × (end < length input.now)) }
{
    input.iter().position(|b| *b == b'\n')
}

// Feeds the input up to the end of a line and makes the line's call, or keeps all of it where no line ends in it.
pub fn feed(
    state: State,
    input: &[u8],
    line: &mut [u8],
    rows: &mut [u64],
    entries: &mut [u16],
) -> Fed
    requires { Ready state line.old }
    ensures { Feeds (held state rows.old entries.old line.old) input.now result (held result.state rows.new entries.new line.new) }
{
    let Some(end) = find(input) else {
        let kept = keep(line, state.kept, input);
        return Fed {
            state: State { kept, ..state },
            used: input.len(),
            reply: None,
        };
    };
    let kept = keep(line, state.kept, &input[..end]);
    let turn = take(state.n, state.t, rows, entries, lines::read(&line[..kept]));
    Fed {
        state: State {
            n: turn.n,
            t: turn.t,
            kept: 0,
        },
        used: end + 1,
        reply: Some(turn.answer),
    }
}

// Where the input has ended: makes the call of a last line that has no end.
pub fn finish(state: State, line: &[u8], rows: &mut [u64], entries: &mut [u16]) -> Option<Answer>
    requires { Ready state line.now }
    ensures { out (replied result) (mem rows.new entries.new) ≡ finished (held state rows.old entries.old line.now) }
{
    let kept = state.kept;
    if kept == 0 {
        return None;
    }
    let turn = take(state.n, state.t, rows, entries, lines::read(&line[..kept]));
    Some(turn.answer)
}

// Writes an answer, if there is one, from a place on, and tells where it ends. It is always inlined, so that an answer is not copied to
// be handed on.
#[inline(always)]
#[tactic(auto, using(lines::proofs::Pastes::text_none, crate::proofs::Cases::one_printed), unfolding(crate::specs::Dialogue::printed))]
pub fn print(text: &mut [u8], at: usize, reply: Option<Answer>) -> usize
    requires { at + 84 ≤ length text.old }
    ensures writes { out result text.new ≡ text_to text.old at (printed (replied reply)) }
    ensures ends { result ≤ at + 84 }
{
    match reply {
        None => at,
        Some(answer) => lines::write(text, at, answer),
    }
}

// Feeds the input, and writes the answers from the text's start on, until one more might not fit. It counts what it has used, which
// is a part of its answer.
pub fn serve(
    state: State,
    input: &[u8],
    line: &mut [u8],
    rows: &mut [u64],
    entries: &mut [u16],
    text: &mut [u8],
) -> Served
    requires { Ready state line.old }
    ensures { Serves (held state rows.old entries.old line.old) input.now text.old result text.new (held result.state rows.new entries.new line.new) }
{
    let mut now = state;
    let mut used = 0;
    let mut end = 0;
    while used < input.len() && text.len() - end >= ANSWER_MAX {
        let fed = feed(now, &input[used..], line, rows, entries);
        end = print(text, end, fed.reply);
        now = fed.state;
        used += fed.used;
    }
    Served {
        state: now,
        used,
        end,
    }
}
