// The limits of a session's counts: refusal 18. Sums have 128 bits, where none wraps.
#![tactic(auto)]

ghost use Rattle.std.specs.Prelude.{◌≡◌, ◌||◌, ◌+◌, ◌^◌, ltb, length};
ghost use Rattle.field.specs.Field.{field_size};
ghost use Rattle.packet.specs.Packet.{length_field};
ghost use Rattle.entry.specs.Entry.{entries_in};
ghost use Rattle.session.specs.Limits.{held_limit, filling_limit, region_limit};

use entry::entries_in;
use field::{Width, padded};
use packet::sahara_read_packet_length;
use session::{Filling, Region};

// Memory reads above 2^63 + 1.
pub fn reads_limit(reads: u64) -> bool
    ensures { result ≡ ltb (2 ^ 63 + 1) reads }
{
    9223372036854775809 < reads
}

// The length in the header of the packet that is held.
pub fn length_in(window: [u8; 48]) -> u32
    ensures { result ≡ length_field window }
{
    padded(&window, 4)
}

// Held packet bytes above 4,095 or, from the eighth on, not below a length of 8..4096 in their header.
pub fn held_limit(window: [u8; 48], held: usize) -> bool
    ensures { result ≡ held_limit window held }
{
    let size = length_in(window);
    4095 < held
        || (8 <= held && (sahara_read_packet_length(size).is_err() || size as usize <= held))
}

// A buffer shorter than the declared length, or more filled than that.
pub fn filling_limit(x: Filling, buffer: &[u8]) -> bool
    ensures { result ≡ filling_limit x buffer.now }
{
    buffer.len() < x.declared || x.declared < x.filled
}

// A table buffer shorter than the table's length k, or an entry to go on from above its entries.
pub fn between_limit(width: Width, k: usize, i: usize, table: &[u8]) -> bool
    ensures { result ≡ (ltb (length table.now) k || ltb (entries_in (field_size width) k) i) }
{
    table.len() < k || entries_in(width, k) < i
}

// Base plus length above what a memory of this width has.
pub fn past_memory(width: Width, base: u64, len: u64) -> bool
    ensures { result ≡ ltb (256 ^ field_size width) (base + len) }
{
    let bytes: u128 = match width {
        Width::Bits32 => 1 << 32,
        Width::Bits64 => 1 << 64,
    };
    bytes < base as u128 + len as u128
}

// A table buffer shorter than the table's length k, an entry that is not there, or a region with more than its bytes or past the memory.
pub fn region_limit(width: Width, k: usize, x: Region, table: &[u8]) -> bool
    ensures { result ≡ region_limit (field_size width) k x table.now }
{
    let counted = x.done as u128 + x.outstanding as u128;
    table.len() < k
        || entries_in(width, k) <= x.entry
        || (x.len as u128) < counted
        || (counted != 0 && past_memory(width, x.base, x.len))
}
