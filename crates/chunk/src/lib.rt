// A chunk of a region: the most that one memory read asks for, and whether an empty read is due behind it.
#![tactic(auto)]

ghost use Rattle.std.specs.Prelude.{◌≡◌};
ghost use Rattle.verdict.specs.Opening.{chunk_of};
ghost use Rattle.session.specs.RegionPhase.{due_after};

use verdict::{Opening, QdlBackend};

// The most that one memory read asks for.
#[tactic(auto, unfolding(verdict::specs::Opening::chunk_of))]
pub fn chunk_size(opening: Opening) -> usize
    ensures { result ≡ chunk_of opening }
{
    4096
}

// Whether an empty read is due: on USB, when a chunk that is a multiple of 512 is handed out.
pub fn due_after(opening: Opening, outstanding: u64, done: u64) -> bool
    ensures { result ≡ due_after opening outstanding done }
{
    opening.backend == QdlBackend::Usb && outstanding == 0 && done % 512 == 0
}
