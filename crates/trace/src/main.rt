// `trace`: reads lines of calls from standard input, makes each on 4,096 rows and 512 entries, all zero at the start, and
// prints its answer: one line for each line. It reads what is there, and writes every answer before it reads again. What
// it reads and prints goes through `dialogue`, which says all of it; here are only the calls that read and write.
#![tactic(auto)]

ghost use Rattle.std.specs.Prelude.{◌≡◌, ◌≤◌, length, OnOk, IfOk, IfErr, IsErrOf};
ghost use Rattle.std.specs.Io.KnownBytes.{Appends};
ghost use Rattle.dialogue.specs.Dialogue.{fed, finished, printed};
ghost use Rattle.dialogue.specs.Feeds.{held, Ready};
ghost use Rattle.trace.specs.Passes.{Passes, AnswersAll, AnswersPart};

use dialogue::State;
use std::fmt;
use std::io::{Read, Write};
use std::process::ExitCode;

// Why it stops before all input is read and all answers are written.
#[derive(Clone, Copy)]
enum Failure {
    Unread,
    Unwritten,
}

impl fmt::Display for Failure {
    fn fmt<W: fmt::Write>(&self, f: &mut fmt::Formatter<W>) -> fmt::Result {
        match self {
            Failure::Unread => write!(f, "trace: standard input can't be read"),
            Failure::Unwritten => write!(f, "trace: standard output can't be written"),
        }
    }
}

// Answers a part of the input.
fn pass<W: Write>(
    state: State,
    input: &[u8],
    line: &mut [u8],
    rows: &mut [u64],
    entries: &mut [u16],
    text: &mut [u8],
    output: &mut W,
) -> Result<State, Failure>
    requires { Ready state line.old × (84 ≤ length text.old) }
    ensures passes { IfOk result (λ left. Passes (held state rows.old entries.old line.old) input.now left (held left rows.new entries.new line.new)) }
    ensures writes { OnOk result (Appends (W.contents output.old) (W.contents output.new)
        (printed (fed (held state rows.old entries.old line.old) input.now).answer)) }
    ensures unwritten { IfErr result (λ e. e ≡ Failure.Unwritten) }
{
    let mut now = state;
    let mut rest = input;
    while !rest.is_empty() {
        let served = dialogue::serve(now, rest, line, rows, entries, text);
        output
            .write_all(&text[..served.end])
            .map_err(|_| Failure::Unwritten)?;
        now = served.state;
        rest = &rest[served.used..];
    }
    Ok(now)
}

// Answers a last line that has no end.
fn finish<W: Write>(
    state: State,
    line: &[u8],
    rows: &mut [u64],
    entries: &mut [u16],
    text: &mut [u8],
    output: &mut W,
) -> Result<(), Failure>
    requires { Ready state line.now × (84 ≤ length text.old) }
    ensures writes { OnOk result (Appends (W.contents output.old) (W.contents output.new)
        (printed (finished (held state rows.old entries.old line.now)).answer)) }
    ensures unwritten { IfErr result (λ e. e ≡ Failure.Unwritten) }
{
    let reply = dialogue::finish(state, line, rows, entries);
    let end = dialogue::print(text, 0, reply);
    output
        .write_all(&text[..end])
        .map_err(|_| Failure::Unwritten)
}

// The input in parts, each as large as what is there. The number of parts is far beyond any use.
fn run<R: Read, W: Write>(input: &mut R, output: &mut W) -> Result<(), Failure>
    ensures whole { OnOk result (AnswersAll (R.remaining input.old) (W.contents output.old) (W.contents output.new)) }
    ensures unread { IsErrOf result Failure.Unread
        → AnswersPart (R.remaining input.old) (R.remaining input.new) (W.contents output.old) (W.contents output.new) }
{
    let mut rows = [0u64; 4096];
    let mut entries = [0u16; 512];
    let mut line = [0u8; 65];
    let mut part = [0u8; 65536];
    let mut text = [0u8; 65536];
    let mut state = State {
        n: 0,
        t: 0,
        kept: 0,
    };
    for _ in 0..u64::MAX {
        let Ok(count) = input.read(&mut part) else {
            return Err(Failure::Unread);
        };
        if count == 0 {
            return finish(state, &line, &mut rows, &mut entries, &mut text, output);
        }
        state = pass(
            state,
            &part[..count],
            &mut line,
            &mut rows,
            &mut entries,
            &mut text,
            output,
        )?;
    }
    Err(Failure::Unread)
}

fn main(rt: HostRuntime) -> ExitCode {
    match run(&mut rt.stdin(), &mut rt.stdout()) {
        Ok(()) => ExitCode::SUCCESS,
        Err(failure) => {
            let _ = rt.eprintln(failure);
            ExitCode::FAILURE
        }
    }
}
