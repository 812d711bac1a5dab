// Entries: the count of one lowered and raised; runs of them: are they alike, make them alike, sum what they count. A run is its
// first entry and its length, which the definitions speak of.
#![tactic(auto)]

ghost use Rattle.std.specs.Prelude.{◌≡◌, ◌+◌, ◌-◌, ◌^◌, ◌≤◌, ◌<◌, length, set};
ghost use Rattle.base.specs.Walk.{written};
ghost use Rattle.rules.specs.State.{entry_of, free_of, entries_are, blocks_in};

use base::HugeOrder;

// The frames of a block, as an entry counts them: the same number in fewer bits, so that the compiler keeps but one of the two.
pub fn size(order: usize) -> u16
    requires { order < 16 }
    ensures { result ≡ 2 ^ order }
{
    base::size(order) as u16
}

// The entry of a huge frame that is free whole.
pub fn whole(h: HugeOrder) -> u16
    ensures { result ≡ 2 ^ h.order }
{
    size(h.order)
}

// Lowers entry x by a block's frames.
pub fn lower(entries: &mut [u16], x: usize, order: usize)
    requires { (order < 16) × (x < length entries.old) × (2 ^ order ≤ entry_of entries.old x) }
    ensures { entries.new ≡ set entries.old x (entry_of entries.old x - 2 ^ order) }
{
    entries[x] -= size(order);
}

// Raises entry x by a block's frames.
pub fn raise(entries: &mut [u16], x: usize, order: usize)
    requires { (order < 16) × (x < length entries.old) × (entry_of entries.old x + 2 ^ order < 65536) }
    ensures { entries.new ≡ set entries.old x (entry_of entries.old x + 2 ^ order) }
{
    entries[x] += size(order);
}

// Whether the g entries from at on are all v.
pub fn are(entries: &[u16], v: u16, at: usize, g: usize) -> bool
    requires { at + g ≤ length entries.now }
    ensures { result ≡ entries_are v entries.now at g }
{
    // A loop over indices: with std's `all` a get takes up to 9 per cent longer, and with a loop over the part of the slice that of
    // a whole tree 20 per cent.
    for i in at..at + g {
        if entries[i] != v {
            return false;
        }
    }
    true
}

// Makes the g entries from at on v.
pub fn fill(entries: &mut [u16], v: u16, at: usize, g: usize)
    requires { at + g ≤ length entries.old }
    ensures { entries.new ≡ written (λ i. v) entries.old at g }
{
    // One entry by itself: otherwise a get of a huge frame takes 5 to 14 per cent longer. And a loop over indices: with std's `fill` a
    // get of a whole tree takes 6 to 10 per cent longer, with one over the part of the slice 14.
    if g == 1 {
        entries[at] = v;
        return;
    }
    for i in at..at + g {
        entries[i] = v;
    }
}

// An entry's free count. It and what is summed of it are 32 bits wide, so that the compiler takes several entries at a time.
pub fn free(entry: u16) -> u32
    ensures { result ≡ free_of entry }
{
    if entry == shape::MARK {
        0
    } else {
        entry as u32
    }
}

// The blocks of an order in the free counts of the k entries from at on: at order 0, the free frames. A constant order lets
// the compiler specialise the loop.
pub fn blocks(entries: &[u16], k: usize, at: usize, order: usize) -> usize
    requires { (at + k ≤ length entries.now) × (k < 65536) × (order < 32) }
    ensures { result ≡ blocks_in entries.now k at order }
{
    entries[at..at + k]
        .iter()
        .map(|entry| free(*entry) >> order)
        .sum::<u32>() as usize
}
