// Numbers as text: decimal digits, the most significant first, no leading zeros. Text is an array that is lent, with a place in it,
// since nothing here allocates.
#![tactic(auto)]

ghost use Rattle.std.specs.Prelude.{◌≡◌, ◌+◌, ◌≤◌, length};
ghost use Rattle.std.proofs.Math.Seq.{paste};
ghost use Rattle.base.specs.Code.{out};
ghost use Rattle.decimal.specs.Decimal as spec;

// A number that was read: what it is, and where its text ends.
#[derive(Clone, Copy)]
pub struct Number {
    pub value: usize,
    pub next: usize,
}

// Reads the number whose digits begin at a place of a line, and no further than the digit that is too much.
pub fn read(line: &[u8], at: usize) -> Option<Number>
    ensures { result ≡ spec.number_at line.now at }
{
    let rest = line.get(at..)?;
    let mut value: usize = 0;
    let mut len: usize = 0;
    for c in rest.iter().take_while(|c| c.is_ascii_digit()) {
        let digit = usize::from(*c - b'0');
        let tens = value.checked_mul(10)?;
        value = tens.checked_add(digit)?;
        len += 1;
    }
    if len == 0 || len > 1 && rest[0] == b'0' {
        return None;
    }
    Some(Number {
        value,
        next: at + len,
    })
}

// How many digits a number has.
fn places(n: usize) -> usize
    ensures { result ≡ spec.places n }
{
    n.max(1).ilog10() as usize + 1
}

// Stores the last k digits of a number from a place on, the last of them first.
fn store(text: &mut [u8], at: usize, k: usize, n: usize)
    requires { at + k ≤ length text.old }
    ensures { text.new ≡ paste text.old at (spec.digits k n) k }
{
    let mut rest = n;
    // By index: the contract is on the whole text, of which `iter_mut().rev()` lends each digit by itself.
    for j in (0..k).rev() {
        text[at + j] = b'0' + (rest % 10) as u8;
        rest /= 10;
    }
}

// Writes a number from a place on, and answers where its text ends. No number has more than twenty digits.
pub fn write(text: &mut [u8], at: usize, n: usize) -> usize
    requires { at + 20 ≤ length text.old }
    ensures writes { out result text.new ≡ spec.number_to text.old at n }
    ensures ends { result ≤ at + 20 }
{
    let k = places(n);
    store(text, at, k, n);
    at + k
}
