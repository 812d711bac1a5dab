// Replays lines of `trace`, by the same dialogue, and prints each answer with a digest of the needed entries and rows
// after it. Its stored input and output are a sample of the Rust's own answers, and of the model's where the file
// `answered` says so (oracle/sample makes all three). So a run shows equality with the Rust where there is none at hand.
#![tactic(auto)]

ghost use Rattle.std.specs.Prelude.{◌≤◌, IfOk};
ghost use Rattle.dialogue.specs.Feeds.{Ready};

use dialogue::State;
use lines::Answer;
use shape::TreeSize;
use std::io::{self, Read};

// The basis of FNV-1a.
const BASIS: u64 = 0xcbf2_9ce4_8422_2325;

// Its prime, 2^40 + 435.
const PRIME: u64 = 0x100_0000_01b3;

// FNV-1a: some bytes more. The product wraps.
fn mixed(digest: u64, bytes: &[u8]) -> u64 {
    bytes.iter().fold(digest, |d, byte| {
        (d ^ u64::from(*byte)).wrapping_mul(PRIME)
    })
}

// The digest of what N frames in trees of T need, which no call goes beyond: the entries, and the rows.
fn digest(n: usize, t: usize, rows: &[u64], entries: &[u16]) -> u64 {
    let Some(size) = TreeSize::new(t) else {
        return BASIS;
    };
    if n > shape::FRAMES_MAX {
        return BASIS;
    }
    let entries_needed = shape::entries_needed(base::HUGE_ORDER, n, size);
    let rows_needed = shape::rows_needed(base::HUGE_ORDER, n);
    let after_entries = entries
        .iter()
        .take(entries_needed)
        .fold(BASIS, |d, entry| mixed(d, &entry.to_le_bytes()));
    rows.iter()
        .take(rows_needed)
        .fold(after_entries, |d, row| mixed(d, &row.to_le_bytes()))
}

// Prints an answer, if there is one, for N frames in trees of T: the digest stands where its LF was.
fn print(
    rt: &impl Print,
    n: usize,
    t: usize,
    rows: &[u64],
    entries: &[u16],
    reply: Option<Answer>,
) -> io::Result<()> {
    let mut text = [0u8; 105];
    let end = dialogue::print(&mut text, 0, reply);
    if end > 0 {
        text[end - 1] = b' ';
        let last = decimal::write(&mut text, end, digest(n, t, rows, entries) as usize);
        text[last] = b'\n';
        rt.write_all(&text[..=last])?;
    }
    Ok(())
}

// Answers the lines of a part of the input.
fn serve(
    rt: &impl Print,
    state: State,
    input: &[u8],
    line: &mut [u8],
    rows: &mut [u64],
    entries: &mut [u16],
) -> io::Result<State>
    requires { Ready state line.old }
    ensures { IfOk result (λ left. left.kept ≤ 65) }
{
    let mut now = state;
    let mut rest = input;
    while !rest.is_empty() {
        let fed = dialogue::feed(now, rest, line, rows, entries);
        now = fed.state;
        print(rt, now.n, now.t, rows, entries, fed.reply)?;
        rest = &rest[fed.used..];
    }
    Ok(now)
}

// The input in parts, each as large as what is there. Each of its lines has an LF. The number of parts is far beyond any use.
fn main(rt: HostRuntime) -> io::Result<()> {
    let mut rows = [0u64; 4096];
    let mut entries = [0u16; 512];
    let mut line = [0u8; 65];
    let mut input = [0u8; 65536];
    let mut state = State {
        n: 0,
        t: 0,
        kept: 0,
    };
    for _ in 0..u64::MAX {
        let count = rt.stdin().read(&mut input)?;
        if count == 0 {
            break;
        }
        state = serve(
            &rt,
            state,
            &input[..count],
            &mut line,
            &mut rows,
            &mut entries,
        )?;
    }
    Ok(())
}
