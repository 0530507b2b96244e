// Little-endian fields of 4 and 8 bytes, read and written anywhere in a slice. A field that does not fit is an answer, or is read with zeros. The width of a
// memory debug's numbers.
#![tactic(auto)]

ghost use Rattle.std.specs.Prelude.{◌≡◌, ℕ, ◌+◌, ◌-◌, ◌≤◌, ◌++◌, leb, length, drop, replicate};
ghost use Rattle.std.proofs.Common.{rules};
ghost use Rattle.std.proofs.lemmas.List.Edits.{sets};
ghost use Rattle.field.specs.Field.{le, le_bytes, field_at, written, put_at, field_size};
ghost use Rattle.field.specs.Width.{width_number, width_named};

// A number that is a field of SIZE bytes: `of` is the number read, `value` the one written.
pub trait Number: Copy {
    const SIZE: usize;

    ghost SIZE: { ℕ };

    ghost of: { ℕ → Self };

    ghost value: { Self → ℕ };

    // The number that the first SIZE bytes write, the least first.
    fn of_bytes(bytes: [u8; 8]) -> Self
        ensures { result ≡ of (le SIZE bytes) };

    // Its bytes, the least first; zeros behind them.
    fn bytes(self) -> [u8; 8]
        ensures { result ≡ le_bytes SIZE (value self) ++ replicate (8 - SIZE) 0 };

    // The number whose bytes lie at a place, the least first; a byte that is not there is 0.
    fn load(s: &[u8], at: usize) -> Self
        ensures { result ≡ of (le SIZE (drop at s.now)) }
    {
        let there = &s[at.min(s.len())..];
        let n = Self::SIZE.min(there.len());
        let mut bytes = [0; 8];
        bytes[..n].copy_from_slice(&there[..n]);
        Self::of_bytes(bytes)
    }

    // Its bytes, stored at a place; one that does not lie within is left out.
    fn store(self, d: &mut [u8], at: usize)
        ensures { d.new ≡ sets d.old at (le_bytes SIZE (value self)) }
    {
        let from = at.min(d.len());
        let n = Self::SIZE.min(d.len() - from);
        let bytes = self.bytes();
        d[from..from + n].copy_from_slice(&bytes[..n]);
    }

    ghost most: { SIZE ≤ 8 };
}

impl Number for u32 {
    const SIZE: usize = 4;

    ghost SIZE = { 4 };

    ghost of = { λ n. n };

    ghost value = { λ v. v };

    ghost most = { Prim.search rules };

    #[tactic(auto, using(crate::proofs::Laws::le4_front))]
    fn of_bytes(bytes: [u8; 8]) -> u32 {
        u32::from_le_bytes([bytes[0], bytes[1], bytes[2], bytes[3]])
    }

    #[tactic(auto, using(crate::proofs::Laws::bytes_are))]
    fn bytes(self) -> [u8; 8] {
        let b = self.to_le_bytes();
        [b[0], b[1], b[2], b[3], 0, 0, 0, 0]
    }
}

impl Number for u64 {
    const SIZE: usize = 8;

    ghost SIZE = { 8 };

    ghost of = { λ n. n };

    ghost value = { λ v. v };

    ghost most = { Prim.search rules };

    #[tactic(auto, using(crate::proofs::Laws::le8_front))]
    fn of_bytes(bytes: [u8; 8]) -> u64 {
        u64::from_le_bytes(bytes)
    }

    #[tactic(auto, using(crate::proofs::Laws::bytes_are))]
    fn bytes(self) -> [u8; 8] {
        self.to_le_bytes()
    }
}

// A field does not lie within the bytes.
#[derive(Clone, Copy, Debug, PartialEq, Eq)]
pub struct Short;

// The width of a memory debug's numbers.
#[derive(Clone, Copy)]
pub enum Width {
    Bits32,
    Bits64,
}

// A number of bits is no width's.
#[derive(Clone, Copy, Debug, PartialEq, Eq)]
pub struct NoWidth;

impl From<Width> for u64 {
    ghost from_gives = { λ width n. n ≡ width_number width };

    fn from(width: Width) -> u64 {
        match width {
            Width::Bits32 => 32,
            Width::Bits64 => 64,
        }
    }
}

impl TryFrom<u64> for Width {
    type Error = NoWidth;

    ghost try_from_gives = { λ n r. r ≡ width_named n };

    fn try_from(n: u64) -> Result<Width, NoWidth> {
        match n {
            32 => Ok(Width::Bits32),
            64 => Ok(Width::Bits64),
            _ => Err(NoWidth),
        }
    }
}

// So many bytes at a place lie within the first len.
fn lies_within(len: usize, at: usize, size: usize) -> bool
    ensures { result ≡ leb (at + size) len }
{
    size <= len && at <= len - size
}

// The field at a place, which lies within the bytes.
fn load<T: Number>(s: &[u8], at: usize) -> T
    requires { at + T.SIZE ≤ length s.now }
    ensures { result ≡ T.of (le T.SIZE (drop at s.now)) }
{
    let n = T::SIZE;
    let mut bytes = [0; 8];
    bytes[..n].copy_from_slice(&s[at..at + n]);
    T::of_bytes(bytes)
}

// A number's bytes, put at a place where they lie within.
fn store<T: Number>(d: &mut [u8], at: usize, v: T)
    requires { at + T.SIZE ≤ length d.old }
    ensures { d.new ≡ sets d.old at (le_bytes T.SIZE (T.value v)) }
{
    let n = T::SIZE;
    d[at..at + n].copy_from_slice(&v.bytes()[..n]);
}

// The field at a place.
#[tactic(auto, unfolding(crate::specs::Field::field_at))]
pub fn field_at<T: Number>(s: &[u8], at: usize) -> Option<T>
    ensures { result ≡ field_at T.SIZE T.of s.now at }
{
    if lies_within(s.len(), at, T::SIZE) {
        Some(load(s, at))
    } else {
        None
    }
}

// The number that the bytes at a place write; a byte that is not there is 0.
#[tactic(auto, using(crate::proofs::Laws::told_is, crate::proofs::Laws::told_short, crate::proofs::Laws::from_place))]
pub fn padded<T: Number>(s: &[u8], at: usize) -> T
    ensures { result ≡ T.of (le T.SIZE (drop at s.now)) }
{
    if let Some(v) = field_at(s, at) {
        return v;
    }
    let there = &s[at.min(s.len())..];
    let mut bytes = [0u8; 8];
    bytes[..there.len()].copy_from_slice(there);
    T::of_bytes(bytes)
}

// Writes a field at a place.
#[tactic(auto, unfolding(crate::specs::Field::put_at))]
pub fn put<T: Number>(d: &mut [u8], at: usize, v: T) -> Result<(), Short>
    ensures { written result d.new ≡ put_at T.SIZE d.old at (T.value v) }
{
    if !lies_within(d.len(), at, T::SIZE) {
        return Err(Short);
    }
    store(d, at, v);
    Ok(())
}

// The bytes of a number of this width.
pub fn field_size(width: Width) -> usize
    ensures { result ≡ field_size width }
{
    match width {
        Width::Bits32 => 4,
        Width::Bits64 => 8,
    }
}
