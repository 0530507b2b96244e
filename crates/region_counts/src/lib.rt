// A region's counts: how much the next memory read asks for, what is handed out of the bytes that came, and the number that its end is refused with.
#![tactic(auto)]

ghost use Rattle.std.specs.Prelude.{◌≡◌};
ghost use Rattle.session.specs.RegionPhase.{recounted, asks_for, past_end};
ghost use Rattle.region_counts.specs.Counts.{handed_by};

use chunk::chunk_size;
use field::Width;
use refusal::Refusal;
use session::Region;
use verdict::Opening;

// Bytes handed out: how many, and how many are outstanding then.
#[derive(Clone, Copy)]
pub struct Handed {
    pub taken: usize,
    pub left: u64,
}

// The region with other counts.
pub fn recount(x: Region, done: u64, outstanding: u64, due: bool) -> Region
    ensures { result ≡ recounted x done outstanding due }
{
    Region {
        done,
        outstanding,
        due,
        ..x
    }
}

// How much the next memory read asks for: 0 where all is done.
pub fn asks_for(opening: Opening, x: Region) -> u64
    ensures { result ≡ asks_for opening x }
{
    if x.len <= x.done {
        return 0;
    }
    (chunk_size(opening) as u64).min(x.len - x.done)
}

// Of the bytes that came, so many, what is outstanding is handed out.
pub fn hands_out(x: Region, came: usize) -> Handed
    ensures { result ≡ handed_by x came }
{
    let n = x.outstanding.min(came as u64);
    let left = x.outstanding - n;
    Handed {
        taken: n as usize,
        left,
    }
}

// What a region that ends behind the memory is refused with.
pub fn past_end(width: Width) -> Refusal
    ensures { result ≡ past_end width }
{
    match width {
        Width::Bits32 => Refusal::RegionEnd32,
        Width::Bits64 => Refusal::RegionEnd,
    }
}
