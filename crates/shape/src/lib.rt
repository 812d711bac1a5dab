// The numbers of document 01: sizes that follow from the huge order h and the tree size T, and conversions between
// frames, rows, huge frames and trees. T enters them by its logarithm k, so that none of them divides.
#![tactic(auto)]

ghost use Rattle.std.specs.Prelude.{◌≡◌, true, is_some, IfSome, ◌*◌, ◌/◌, ◌%◌, ◌^◌, ◌<◌, ◌≤◌};
ghost use Rattle.base.specs.Size.{rows_per};
ghost use Rattle.rules.specs.Numbers.{row_of, bit_of, huge_of, tree_at, tree_log, is_tree, top_order, aligned, rows_needed, entries_needed};

use base::HugeOrder;

// The bits of a row.
pub const ROW_BITS: usize = 64;

// The entry of a huge frame that is held whole.
pub const MARK: u16 = 65535;

// The most frames that N may be.
pub const FRAMES_MAX: usize = 1_048_576;

// The most huge frames of a tree.
pub const TREE_MAX: usize = 512;

// Whether t is one of the ten tree sizes.
pub fn is_tree(t: usize) -> bool
    ensures { result ≡ is_tree t }
{
    if t == 0 || TREE_MAX < t {
        return false;
    }
    t & (t - 1) == 0
}

// The size of a tree in huge frames: one of the ten.
#[derive(Clone, Copy)]
pub struct TreeSize {
    pub huge: usize,
    pub ghost within: { is_tree huge ≡ true },
}

impl TreeSize {
    // The tree size of a number, if it is one.
    pub fn new(t: usize) -> Option<TreeSize>
        ensures some { is_some result ≡ is_tree t }
        ensures same { IfSome result (λ size. size.huge ≡ t) }
    {
        if is_tree(t) {
            Some(TreeSize { huge: t })
        } else {
            None
        }
    }

    // log2 T.
    pub fn log(self) -> usize
        ensures { result ≡ tree_log self.huge }
    {
        usize::trailing_zeros(self.huge) as usize
    }
}

// The order of a whole tree.
pub fn top_order(h: HugeOrder, t: TreeSize) -> usize
    ensures { result ≡ top_order h.order t.huge }
{
    h.order + t.log()
}

// The rest of x by 2^k.
fn rest(x: usize, k: usize) -> usize
    requires { k < 64 }
    ensures { result ≡ x % 2 ^ k }
{
    x & (base::size(k) - 1)
}

// Whether a frame is aligned at an order.
pub fn is_aligned(frame: usize, order: usize) -> bool
    requires { order < 64 }
    ensures { result ≡ aligned frame order }
{
    rest(frame, order) == 0
}

// The row of a frame.
pub fn frame_row(frame: usize) -> usize
    ensures { result ≡ row_of frame }
{
    frame / ROW_BITS
}

// The bit of a frame in its row.
pub fn frame_bit(frame: usize) -> usize
    ensures { result ≡ bit_of frame }
{
    frame % ROW_BITS
}

// The huge frame of a frame.
pub fn frame_huge(h: HugeOrder, frame: usize) -> usize
    ensures { result ≡ huge_of h.order frame }
{
    frame >> h.order
}

// The place of a frame in its huge frame.
pub fn frame_place(h: HugeOrder, frame: usize) -> usize
    ensures { result ≡ frame % 2 ^ h.order }
{
    rest(frame, h.order)
}

// The huge frame of a row.
pub fn row_huge(h: HugeOrder, row: usize) -> usize
    ensures { result ≡ huge_of h.order (row * 64) }
{
    row >> (h.order - 6)
}

// The first frame of a huge frame.
pub fn huge_frame(h: HugeOrder, huge: usize) -> usize
    requires { huge * 2 ^ h.order < 2 ^ 64 }
    ensures { result ≡ huge * 2 ^ h.order }
{
    huge << h.order
}

// The first row of a huge frame.
pub fn huge_row(h: HugeOrder, huge: usize) -> usize
    requires { huge * rows_per h.order < 2 ^ 64 }
    ensures { result ≡ huge * rows_per h.order }
{
    huge << (h.order - 6)
}

// The tree of a huge frame. It is never inlined: in line, a get takes more stack than docs/KERNEL.md says.
#[inline(never)]
pub fn huge_tree(k: usize, huge: usize) -> usize
    requires { k < 10 }
    ensures { result ≡ huge / 2 ^ k }
{
    huge >> k
}

// The place of a huge frame in its tree.
pub fn huge_child(k: usize, huge: usize) -> usize
    requires { k < 10 }
    ensures { result ≡ huge % 2 ^ k }
{
    rest(huge, k)
}

// The first huge frame of a tree.
pub fn tree_huge(k: usize, tree: usize) -> usize
    requires { (k < 10) × (tree * 2 ^ k < 2 ^ 64) }
    ensures { result ≡ tree * 2 ^ k }
{
    tree << k
}

// The first huge frame of a frame's tree.
pub fn tree_first(h: HugeOrder, t: TreeSize, frame: usize) -> usize
    ensures { result ≡ tree_at h.order t.huge frame }
{
    let k = t.log();
    tree_huge(k, frame >> (h.order + k))
}

// The rows that n frames need.
pub fn rows_needed(h: HugeOrder, n: usize) -> usize
    requires { n ≤ 1048576 }
    ensures { result ≡ rows_needed h.order n }
{
    ((n + (h.frames() - 1)) >> h.order) << (h.order - 6)
}

// The entries that n frames need, in trees of t.
pub fn entries_needed(h: HugeOrder, n: usize, t: TreeSize) -> usize
    requires { n ≤ 1048576 }
    ensures { result ≡ entries_needed h.order n t.huge }
{
    let order = top_order(h, t);
    ((n + (base::size(order) - 1)) >> order) << t.log()
}
