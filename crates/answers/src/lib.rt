// What the calls of the lower level answer, and why they refuse. The rules give each answer its numbers.
#![tactic(auto)]

ghost use Rattle.std.specs.Prelude.{◌≡◌};
ghost use Rattle.answers.specs.Numbers.{Refuses, flaw_number, reason_of, frame_of};

use base::Refusal;

// What a get has taken: the frame, and the entries or groups that it visited.
#[derive(Clone, Copy)]
pub struct Taken {
    pub frame: usize,
    pub probes: usize,
}

// Why a get has taken nothing, and the entries or groups that it visited.
#[derive(Clone, Copy)]
pub struct Denied {
    pub refusal: Refusal,
    pub probes: usize,
}

// A check that fails comes before the first visit.
impl From<Refusal> for Denied {
    ghost from_gives = { Refuses };

    fn from(refusal: Refusal) -> Denied {
        Denied {
            refusal: refusal,
            probes: 0,
        }
    }
}

// Free frames, huge frames that are free whole, and trees that are.
#[derive(Clone, Copy, Default)]
pub struct Free {
    pub frames: usize,
    pub huge: usize,
    pub trees: usize,
}

// What may be wrong with a huge frame.
#[derive(Clone, Copy, PartialEq, Eq)]
pub enum Flaw {
    // It has the mark, and does not lie wholly below N.
    PartialMark = 1,
    // It has the mark, and a bit is set.
    HeldUnderMark = 2,
    // A bit past N is clear.
    ClearPastEnd = 3,
    // Its entry is not the number of its clear bits.
    WrongCount = 4,
    // It is absent, and its entry is not 0.
    AbsentEntry = 5,
}

impl Flaw {
    // Its number among the reasons of an audit, for C and for what is printed.
    pub fn number(self) -> u32
        ensures { result ≡ flaw_number self }
    {
        self as u32
    }
}

// A faulty huge frame, and what is wrong with it.
#[derive(Clone, Copy)]
pub struct Faulty {
    pub huge: usize,
    pub flaw: Flaw,
}

// How many entries and bitfields a recovery changed.
#[derive(Clone, Copy, Default)]
pub struct Mended {
    pub entries: usize,
    pub bitfields: usize,
}

// Why a get or a put would be turned down.
#[derive(Clone, Copy)]
pub enum Cause {
    // The tree has too few free frames.
    TooFew,
    // No single huge frame of the tree has as many free frames.
    Spread,
    // The tree has no aligned block that is free.
    NoBlock,
    // A frame of the block is held: the lowest one.
    Held(usize),
    // A frame of the block is free: the lowest one.
    Free(usize),
    // A huge frame of the block is held singly: the first frame of the lowest one.
    Single(usize),
}

impl Cause {
    // Its number among document 02's reasons, for C.
    pub fn number(self) -> u32
        ensures { result ≡ reason_of self }
    {
        match self {
            Cause::TooFew => 1,
            Cause::Spread => 2,
            Cause::NoBlock => 3,
            Cause::Held(_) => 4,
            Cause::Free(_) => 5,
            Cause::Single(_) => 6,
        }
    }

    // The frame beside it, or 0.
    pub fn frame(self) -> usize
        ensures { result ≡ frame_of self }
    {
        match self {
            Cause::TooFew | Cause::Spread | Cause::NoBlock => 0,
            Cause::Held(frame) | Cause::Free(frame) | Cause::Single(frame) => frame,
        }
    }
}
