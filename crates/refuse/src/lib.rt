// Refusals 1 to 6 of document 01, in their order, on natural numbers: no sum or product of any two numbers wraps. That T is a tree
// size is then the type's. What else passing them means (`Sized`, `Blocked`, `Started`, `Framed`) is asked in the contracts of what
// runs behind them and is no type's: it binds the numbers to the lengths of rows and entries, which are lent apart.
// Some are always inlined, since a Result with a number in it comes back through memory.
#![tactic(auto, using(base::proofs::Refused::stops_here), unfolding(base::specs::Code::or_else))]

ghost use Rattle.std.specs.Prelude.{◌≡◌, ◌<◌, IfOk};
ghost use Rattle.base.specs.Code.{or_else};
ghost use Rattle.base.specs.Refused.{code_of};
ghost use Rattle.rules.specs.State.{lengths};
ghost use Rattle.rules.specs.Refusals.{frames_code, tree_code, lent_code, sizes_code, order_code, block_code, start_code, frame_code};

use base::{HugeOrder, Refusal};
use shape::TreeSize;

fn frames(n: usize) -> Result<(), Refusal>
    ensures { code_of result ≡ frames_code n }
{
    if n == 0 || n > shape::FRAMES_MAX {
        return Err(Refusal::Frames);
    }
    Ok(())
}

fn tree(t: usize) -> Result<TreeSize, Refusal>
    ensures code { code_of result ≡ tree_code t }
    ensures size { IfOk result (λ size. size.huge ≡ t) }
{
    TreeSize::new(t).ok_or(Refusal::Tree)
}

// 3: the last huge frame has its rows lent, and the last entry of its tree is lent.
fn lent(h: HugeOrder, n: usize, t: TreeSize, rows: usize, entries: usize) -> Result<(), Refusal>
    requires { 0 < n }
    ensures { code_of result ≡ lent_code h.order n t.huge (lengths rows entries) }
{
    let last = shape::frame_huge(h, n - 1);
    if shape::row_huge(h, rows) <= last || entries <= last | (t.huge - 1) {
        return Err(Refusal::Lent);
    }
    Ok(())
}

// 1, 2 and 3: what every call checks.
#[inline(always)]
pub fn sizes(
    h: HugeOrder,
    n: usize,
    t: usize,
    rows: usize,
    entries: usize,
) -> Result<TreeSize, Refusal>
    ensures code { code_of result ≡ sizes_code h.order n t (lengths rows entries) }
    ensures size { IfOk result (λ size. size.huge ≡ t) }
{
    frames(n)?;
    let size = tree(t)?;
    lent(h, n, size, rows, entries)?;
    Ok(size)
}

// 1 to 4.
#[inline(always)]
fn orders(
    h: HugeOrder,
    n: usize,
    t: usize,
    rows: usize,
    entries: usize,
    order: usize,
) -> Result<TreeSize, Refusal>
    ensures code { code_of result ≡ or_else (sizes_code h.order n t (lengths rows entries)) (order_code h.order t order) }
    ensures size { IfOk result (λ size. size.huge ≡ t) }
{
    let size = sizes(h, n, t, rows, entries)?;
    if order <= shape::top_order(h, size) {
        Ok(size)
    } else {
        Err(Refusal::Order)
    }
}

// 1 to 6, of a block at a frame.
pub fn block(
    h: HugeOrder,
    n: usize,
    t: usize,
    rows: usize,
    entries: usize,
    frame: usize,
    order: usize,
) -> Result<TreeSize, Refusal>
    ensures code { code_of result ≡ block_code h.order n t (lengths rows entries) frame order }
    ensures size { IfOk result (λ size. size.huge ≡ t) }
{
    let size = orders(h, n, t, rows, entries, order)?;
    let frames = base::size(order);
    if n < frames || n - frames < frame {
        return Err(Refusal::Range);
    }
    if shape::is_aligned(frame, order) {
        Ok(size)
    } else {
        Err(Refusal::Alignment)
    }
}

// 1 to 5, of a start row.
#[inline(always)]
pub fn start(
    h: HugeOrder,
    n: usize,
    t: usize,
    rows: usize,
    entries: usize,
    row: usize,
    order: usize,
) -> Result<TreeSize, Refusal>
    ensures code { code_of result ≡ start_code h.order n t (lengths rows entries) row order }
    ensures size { IfOk result (λ size. size.huge ≡ t) }
{
    let size = orders(h, n, t, rows, entries, order)?;
    if row <= (n - 1) / 64 {
        Ok(size)
    } else {
        Err(Refusal::Range)
    }
}

// 1, 2, 3 and 5, of a frame.
pub fn frame(
    h: HugeOrder,
    n: usize,
    t: usize,
    rows: usize,
    entries: usize,
    frame: usize,
) -> Result<TreeSize, Refusal>
    ensures code { code_of result ≡ frame_code h.order n t (lengths rows entries) frame }
    ensures size { IfOk result (λ size. size.huge ≡ t) }
{
    let size = sizes(h, n, t, rows, entries)?;
    if frame < n {
        Ok(size)
    } else {
        Err(Refusal::Range)
    }
}
