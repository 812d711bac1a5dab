// The line language of `trace`: what a line asks for, and an answer written as a line, into an array that is lent.
#![tactic(auto)]

ghost use Rattle.std.specs.Prelude.{◌≡◌, ◌+◌, ◌≤◌, length};
ghost use Rattle.base.specs.Code.{out};
ghost use Rattle.lines.specs.Read.{line_alone, line_start, line_two, field_at, read_line, field, fields_text};
ghost use Rattle.lines.specs.Answer.{text_to, answer_to};

use decimal::Number;
use rules::Init;

// The most bytes of a line before its LF.
const LINE_MAX: usize = 64;

// The tree size of a start that names none.
const SHORT_TREE: usize = 4;

// A call that may write: G, P, F and R.
#[derive(Clone, Copy)]
pub enum Change {
    Get(usize, usize),
    GetAt(usize, usize),
    Put(usize, usize),
    Recover,
}

// A call that only reads: Q, S, T and A.
#[derive(Clone, Copy)]
pub enum Question {
    IsFree(usize, usize),
    StatsOfAll,
    StatsAt(usize, usize),
    Audit,
}

// What a good line asks for: a start, I, of N frames in trees of T; or one of the other calls.
#[derive(Clone, Copy)]
pub enum Line {
    Starts(usize, usize, Init),
    Changes(Change),
    Asks(Question),
}

// The numbers of an answer beside its code.
#[derive(Clone, Copy)]
pub enum Fields {
    Nothing,
    One(usize),
    Two(usize, usize),
    Three(usize, usize, usize),
}

// An answer as it is printed: a code, which may be the 9 of a bad line, and the numbers beside it.
#[derive(Clone, Copy)]
pub struct Answer {
    pub code: u32,
    pub fields: Fields,
}

// Reads a space at a place of a line, and the number after it.
fn field(line: &[u8], at: usize) -> Option<Number>
    ensures { result ≡ field_at line.now at }
{
    match line.get(at) {
        Some(b' ') => decimal::read(line, at + 1),
        _ => None,
    }
}

// A letter alone.
fn line_alone(letter: u8) -> Option<Line>
    ensures { result ≡ line_alone letter }
{
    match letter {
        b'S' => Some(Line::Asks(Question::StatsOfAll)),
        b'A' => Some(Line::Asks(Question::Audit)),
        b'R' => Some(Line::Changes(Change::Recover)),
        _ => None,
    }
}

// A start, whose last number says how it leaves the frames.
fn line_start(n: usize, t: usize, m: usize) -> Option<Line>
    ensures { result ≡ line_start n t m }
{
    match m {
        0 => Some(Line::Starts(n, t, Init::FreeAll)),
        1 => Some(Line::Starts(n, t, Init::AllocAll)),
        _ => None,
    }
}

// A letter and two numbers.
fn line_two(letter: u8, a: usize, b: usize) -> Option<Line>
    ensures { result ≡ line_two letter a b }
{
    match letter {
        b'G' => Some(Line::Changes(Change::Get(a, b))),
        b'P' => Some(Line::Changes(Change::GetAt(a, b))),
        b'F' => Some(Line::Changes(Change::Put(a, b))),
        b'Q' => Some(Line::Asks(Question::IsFree(a, b))),
        b'T' => Some(Line::Asks(Question::StatsAt(a, b))),
        b'I' => line_start(a, SHORT_TREE, b),
        _ => None,
    }
}

// Reads a line, without its LF: a letter, and no number, two or three.
pub fn read(line: &[u8]) -> Option<Line>
    ensures { result ≡ read_line line.now }
{
    if line.len() > LINE_MAX {
        return None;
    }
    if line.len() == 1 {
        return line_alone(line[0]);
    }
    let x = field(line, 1)?;
    let y = field(line, x.next)?;
    if y.next == line.len() {
        return line_two(line[0], x.value, y.value);
    }
    let z = field(line, y.next)?;
    if line[0] == b'I' && z.next == line.len() {
        line_start(x.value, y.value, z.value)
    } else {
        None
    }
}

// Writes a space and a number from a place on, and answers where they end.
fn write_field(text: &mut [u8], at: usize, n: usize) -> usize
    requires { at + 21 ≤ length text.old }
    ensures writes { out result text.new ≡ text_to text.old at (field n) }
    ensures ends { result ≤ at + 21 }
{
    text[at] = b' ';
    decimal::write(text, at + 1, n)
}

// Writes the numbers of an answer from a place on, each after a space, and answers where they end.
fn write_fields(text: &mut [u8], at: usize, fields: Fields) -> usize
    requires { at + 63 ≤ length text.old }
    ensures writes { out result text.new ≡ text_to text.old at (fields_text fields) }
    ensures ends { result ≤ at + 63 }
{
    match fields {
        Fields::Nothing => at,
        Fields::One(a) => write_field(text, at, a),
        Fields::Two(a, b) => {
            let one = write_field(text, at, a);
            write_field(text, one, b)
        }
        Fields::Three(a, b, c) => {
            let one = write_field(text, at, a);
            let two = write_field(text, one, b);
            write_field(text, two, c)
        }
    }
}

// Writes an answer and its LF from a place on, and answers where they end.
pub fn write(text: &mut [u8], at: usize, answer: Answer) -> usize
    requires { at + 84 ≤ length text.old }
    ensures writes { out result text.new ≡ answer_to text.old at answer }
    ensures ends { result ≤ at + 84 }
{
    let code = decimal::write(text, at, answer.code as usize);
    let end = write_fields(text, code, answer.fields);
    text[end] = b'\n';
    end + 1
}
