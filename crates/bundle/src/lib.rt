// Bundles: the check of an image set and of a name list, and one slot of either.
#![tactic(auto)]

ghost use Rattle.std.specs.Prelude.{◌≡◌, false, ◌+◌, ◌*◌, ◌<◌, ◌≤◌, eqb, length, drop, IfNone, IfSome};
ghost use Rattle.base.specs.Choice.{pick};
ghost use Rattle.base.specs.Told.{Tells};
ghost use Rattle.field.specs.Field.{le};
ghost use Rattle.bundle.specs.Bundle.{
  count_of,
  data_size_of,
  slot_start_of,
  slot_length_of,
  slot_good,
  slots_good,
  well_formed,
  images_checked,
  names_checked,
  checked_told,
  slot_of,
  slot_told,
};

use refusal::Refusal;

// A slot's number in a bundle. It is no image ID: only the one-image rule (crate image) makes one of the other.
#[derive(Clone, Copy)]
pub struct SlotNumber(pub usize);

// A slot: its first byte's place among the bundle's bytes and its length. An absent one and a missing one are two answers, which no Option tells apart.
#[derive(Clone, Copy)]
pub enum Slot {
    At(usize, usize),
    Absent,
    Missing,
}

// A number that lies within the bytes: read without a test of that, which every check of a set would pay.
#[tactic(auto, using(field::proofs::Laws::le4))]
fn number(b: &[u8], at: usize) -> usize
    requires { at + 4 ≤ length b.now }
    ensures { (result ≡ le 4 (drop at b.now)) × (result < 4294967296) }
{
    u32::from_le_bytes([b[at], b[at + 1], b[at + 2], b[at + 3]]) as usize
}

// The mark of an absent slot.
fn is_absent(start: usize, size: usize) -> bool
    ensures { result ≡ pick (eqb start 0xFFFFFFFF) (eqb size 0) false }
{
    start == 0xFFFFFFFF && size == 0
}

// The bytes of a bundle that hold its slot count, its data size, and every start and length; the two numbers as they were read.
#[derive(Clone, Copy)]
struct Header<'a> {
    bytes: &'a [u8],
    count: usize,
    data_size: usize,
    ghost numbers: { (count ≡ count_of bytes.now) × (data_size ≡ data_size_of bytes.now) },
    ghost four_bytes: { (count < 4294967296) × (data_size < 4294967296) },
    ghost starts_and_lengths: { 8 + 8 * count ≤ length bytes.now },
}

// That a slot's number is below the count is asked of each call, since it is of no header. Its methods take it by value: with a reference the compiled check of 64 slots takes twice as long.
impl<'a> Header<'a> {
    // Nothing where the bytes end within the header, the starts or the lengths.
    fn of(bytes: &'a [u8]) -> Option<Header<'a>>
        ensures none { IfNone result (length bytes.now < 8 + 8 * count_of bytes.now) }
        ensures some { IfSome result (λ h. h.bytes.now ≡ bytes.now) }
    {
        if bytes.len() < 8 {
            return None;
        }
        let count = number(bytes, 0);
        let data_size = number(bytes, 4);
        if bytes.len() < 8 + 8 * count {
            return None;
        }
        Some(Header {
            bytes,
            count,
            data_size,
        })
    }

    // The start of slot i.
    fn start_of(self, i: usize) -> usize
        requires { i < self.count }
        ensures { (result ≡ slot_start_of self.entry.bytes.now i) × (result < 4294967296) }
    {
        number(self.bytes, 8 + 4 * i)
    }

    // The length of slot i.
    fn length_of(self, i: usize) -> usize
        requires { i < self.count }
        ensures { (result ≡ slot_length_of self.entry.bytes.now i) × (result < 4294967296) }
    {
        number(self.bytes, 8 + 4 * self.count + 4 * i)
    }

    // Whether slot i is good.
    fn slot_good(self, gaps: bool, i: usize) -> bool
        requires { i < self.count }
        ensures { result ≡ slot_good gaps self.entry.bytes.now i }
    {
        let start = self.start_of(i);
        let size = self.length_of(i);
        if is_absent(start, size) {
            return gaps;
        }
        start + size <= self.data_size
    }

    // Whether every slot is good.
    fn slots_good(self, gaps: bool) -> bool
        ensures { result ≡ slots_good gaps self.entry.bytes.now self.entry.count 0 }
    {
        (0..self.count).all(|i| self.slot_good(gaps, i))
    }

    // Whether the bundle is well-formed, with or without absent slots allowed.
    #[tactic(auto, unfolding(crate::specs::Bundle::well_formed))]
    fn well_formed(self, gaps: bool) -> bool
        ensures { result ≡ well_formed gaps self.entry.bytes.now }
    {
        self.count <= 64
            && self.bytes.len() == 8 + 8 * self.count + self.data_size
            && self.slots_good(gaps)
    }

    // Slot i, whatever i is.
    #[tactic(auto, unfolding(crate::specs::Bundle::slot_of))]
    fn slot(self, i: usize) -> Slot
        ensures { result ≡ slot_of self.entry.bytes.now i }
    {
        if self.count <= i {
            return Slot::Missing;
        }
        let start = self.start_of(i);
        let size = self.length_of(i);
        if is_absent(start, size) {
            return Slot::Absent;
        }
        let from = 8 + 8 * self.count + start;
        if self.bytes.len() < from + size {
            return Slot::Missing;
        }
        Slot::At(from, size)
    }
}

// A well-formed bundle, with or without absent slots allowed.
#[tactic(auto, using(crate::proofs::Read::no_room))]
fn well_formed(b: &[u8], gaps: bool) -> bool
    ensures { result ≡ well_formed gaps b.now }
{
    Header::of(b).is_some_and(|header| header.well_formed(gaps))
}

// An image set: slots may be absent.
pub fn check_images(set: &[u8]) -> Result<(), Refusal>
    ensures { Tells checked_told result (images_checked set.now) }
{
    if well_formed(set, true) {
        return Ok(());
    }
    Err(Refusal::ImageSet)
}

// A name list: no slot may be absent.
pub fn check_names(names: &[u8]) -> Result<(), Refusal>
    ensures { Tells checked_told result (names_checked names.now) }
{
    if well_formed(names, false) {
        return Ok(());
    }
    Err(Refusal::NameList)
}

// A slot of any bytes.
#[tactic(auto, using(crate::proofs::Read::no_slots))]
pub fn slot_at(b: &[u8], slot: SlotNumber) -> Slot
    ensures { Tells slot_told result (slot_of b.now slot.0) }
{
    match Header::of(b) {
        Some(header) => header.slot(slot.0),
        None => Slot::Missing,
    }
}
