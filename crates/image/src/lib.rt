// The image range that a device's read asks for. An image ID and a slot number are different quantities.
#![tactic(auto)]

ghost use Rattle.std.specs.Prelude.{◌≡◌, ◌+◌, ◌<◌};
ghost use Rattle.base.specs.Told.{Tells};
ghost use Rattle.image.specs.Image.{slot_for, range_in, range_unjudged, range_of, range_told};

use bundle::{Slot, SlotNumber, check_images, slot_at};
use field::padded;
use refusal::Refusal;

// The device's name for an image.
#[derive(Clone, Copy)]
pub struct ImageId(pub u64);

// The one-image rule, the only way from an image ID to a slot number.
fn slot_for(n: u32, id: ImageId) -> SlotNumber
    ensures { result.0 ≡ slot_for n id.0 }
{
    if n == 1 {
        return SlotNumber(0);
    }
    SlotNumber(id.0 as usize)
}

// A part of a slot's image.
fn part_of(start: usize, size: usize, offset: u64, len: u64) -> Result<(usize, usize), Refusal>
    requires { start + size < 18446744073709551616 }
    ensures { result ≡ range_in (Slot.At start size) offset len }
{
    let from = offset as usize;
    let count = len as usize;
    if size < from {
        return Err(Refusal::ImageEnd);
    }
    if size - from < count {
        return Err(Refusal::ImageEnd);
    }
    Ok((start + from, count))
}

// Where the bytes that a read asks for stand in the set, and how many they are; the set is not judged: for a caller that has checked it.
#[tactic(auto, using(bundle::proofs::Laws::slot_within))]
pub fn image_range_unjudged(
    set: &[u8],
    id: ImageId,
    offset: u64,
    len: u64,
) -> Result<(usize, usize), Refusal>
    ensures { Tells range_told result (range_unjudged set.now id.0 offset len) }
{
    let n: u32 = padded(set, 0);
    let slot = slot_for(n, id);
    match slot_at(set, slot) {
        Slot::At(start, size) => part_of(start, size, offset, len),
        Slot::Absent | Slot::Missing => Err(Refusal::NoImage),
    }
}

// The same of a set that is judged first.
#[tactic(auto, unfolding(crate::specs::Image::range_of))]
pub fn image_range(
    set: &[u8],
    id: ImageId,
    offset: u64,
    len: u64,
) -> Result<(usize, usize), Refusal>
    ensures { Tells range_told result (range_of set.now id.0 offset len) }
{
    check_images(set)?;
    image_range_unjudged(set, id, offset, len)
}
