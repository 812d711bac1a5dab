// What every level shares: refusals, the huge order and powers of two. Its specs/ and proofs/ hold the walks over indices and the frames' bits.
#![tactic(auto)]

ghost use Rattle.std.specs.Prelude.{◌≡◌, ◌^◌, ◌<◌};
ghost use Rattle.base.specs.Refused.{number_of};
ghost use Rattle.base.specs.Size.{Huge, rows_per};

// Why a call is refused. Each has document 01's number.
#[derive(Clone, Copy, Debug, PartialEq, Eq)]
pub enum Refusal {
    // N is 0 or above 1,048,576.
    Frames = 1,
    // T is not one of the ten.
    Tree = 2,
    // A lent slice is short, or the rows are not just those of a huge frame.
    Lent = 3,
    // The order is above the highest that the call takes.
    Order = 4,
    // A block, a range of bits, a start row or a frame does not lie where it may.
    Range = 5,
    // The block's first frame is not aligned.
    Alignment = 6,
    // No block is free where it is asked for, what is given back is not held, or a bit is not as expected.
    Memory = 7,
    // The state is damaged.
    Damage = 8,
}

impl Refusal {
    // The number by which a refusal leaves this library, for C and for what is printed.
    pub fn number(self) -> u32
        ensures { result ≡ number_of self }
    {
        self as u32
    }
}

// 2^k: the frames of a block of order k.
pub fn size(k: usize) -> usize
    requires { k < 64 }
    ensures { result ≡ 2 ^ k }
{
    1 << k
}

// The huge order: a huge frame is 2^order frames.
#[derive(Clone, Copy)]
pub struct HugeOrder {
    pub order: usize,
    pub ghost within: { Huge order },
}

// The huge order of pages of 4 KiB.
pub const HUGE_ORDER: HugeOrder = HugeOrder { order: 9 };

impl HugeOrder {
    // The frames of a huge frame.
    pub fn frames(self) -> usize
        ensures { result ≡ 2 ^ self.order }
    {
        size(self.order)
    }

    // The rows of a huge frame.
    pub fn rows(self) -> usize
        ensures { result ≡ rows_per self.order }
    {
        size(self.order - 6)
    }
}
