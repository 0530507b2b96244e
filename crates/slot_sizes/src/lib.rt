// What the slots of an image set hold: their sizes, one by one and together, and their starts when the data of one stands behind that of another.
#![tactic(auto)]

ghost use Rattle.std.specs.Prelude.{◌≡◌, ◌+◌, min, length};
ghost use Rattle.bundle.specs.Bundle.{count_of};
ghost use Rattle.bundle.specs.Content.{size_in, content_of};
ghost use Rattle.writer.specs.Writer.{data_of, start_for, most_data};
ghost use Rattle.tidied.specs.Tidy.{first_contents};

use bundle::{Slot, SlotNumber, slot_at};
use field::padded;

// The most data bytes.
pub const MOST: usize = 0xFFFFFFFE;

// The start of an absent slot.
const ABSENT: u32 = 0xFFFFFFFF;

// The bytes of slot i: how many.
#[tactic(auto, using(bundle::proofs::Laws::size_there))]
pub fn size_at(set: &[u8], i: usize) -> usize
    ensures { result ≡ size_in (content_of set.now i) }
{
    match slot_at(set, SlotNumber(i)) {
        Slot::At(_, size) => size,
        Slot::Absent | Slot::Missing => 0,
    }
}

// The start of slot i behind so many bytes of data. Not in line: of a set whose slots are all absent the compiler would make of the loop that writes them a
// call of `memset`, and the archive needs `memcpy` alone (README).
#[inline(never)]
pub fn start_at(set: &[u8], i: usize, before: u32) -> u32
    ensures { result ≡ start_for before (content_of set.now i) }
{
    match slot_at(set, SlotNumber(i)) {
        Slot::At(_, _) => before,
        Slot::Absent | Slot::Missing => ABSENT,
    }
}

// The slots of a set: how many.
pub fn slot_count(set: &[u8]) -> usize
    ensures { result ≡ count_of set.now }
{
    padded::<u32>(set, 0) as usize
}

// The data bytes of the first n slots: how many, and of too many one more than the most.
#[tactic(auto, using(tidied::proofs::Laws::data_none, tidied::proofs::Laws::data_grows, tidied::proofs::Laws::data_up_to))]
pub fn data_size(set: &[u8], n: usize) -> usize
    ensures { result ≡ min (most_data + 1) (length (data_of (first_contents set.now n))) }
{
    let mut total: usize = 0;
    for i in 0..n {
        let size = size_at(set, i);
        if MOST - total < size {
            return MOST + 1;
        }
        total += size;
    }
    total
}
