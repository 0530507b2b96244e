// Entries of the memory table of either width, decoded from its bytes.
#![tactic(auto)]

ghost use Rattle.std.specs.Prelude.{◌≡◌, ◌+◌, ◌≤◌, length, take, drop};
ghost use Rattle.field.specs.Field.{le, field_size};
ghost use Rattle.entry.specs.Entry.{entry_size, entries_in, decoded, entry_at};

use field::{Width, field_size};

// An entry; the numbers of 32 bits are widened.
#[derive(Clone, Copy)]
pub struct RamdumpTable64 {
    pub save_pref: u64,
    pub base: u64,
    pub len: u64,
    pub description: [u8; 20],
    pub filename: [u8; 20],
}

// The bytes of an entry.
fn entry_size(width: Width) -> usize
    ensures { result ≡ entry_size (field_size width) }
{
    match width {
        Width::Bits32 => 52,
        Width::Bits64 => 64,
    }
}

// How many entries a table of k bytes has; a remainder is none.
pub fn entries_in(width: Width, k: usize) -> usize
    ensures { result ≡ entries_in (field_size width) k }
{
    match width {
        Width::Bits32 => k / 52,
        Width::Bits64 => k / 64,
    }
}

// The number at a place, which lies within the table: read without a test of that, which a search would pay for each entry.
#[tactic(auto, using(field::proofs::Laws::le4, field::proofs::Laws::le8))]
fn number_at(table: &[u8], width: Width, at: usize) -> u64
    requires { at + field_size width ≤ length table.now }
    ensures { result ≡ le (field_size width) (drop at table.now) }
{
    match width {
        Width::Bits32 => u64::from(u32::from_le_bytes([
            table[at],
            table[at + 1],
            table[at + 2],
            table[at + 3],
        ])),
        Width::Bits64 => u64::from_le_bytes([
            table[at],
            table[at + 1],
            table[at + 2],
            table[at + 3],
            table[at + 4],
            table[at + 5],
            table[at + 6],
            table[at + 7],
        ]),
    }
}

// The text of 20 bytes at a place.
fn text_at(table: &[u8], at: usize) -> [u8; 20]
    requires { at + 20 ≤ length table.now }
    ensures { result ≡ take 20 (drop at table.now) }
{
    let mut text = [0u8; 20];
    text.copy_from_slice(&table[at..at + 20]);
    text
}

// The entry at a place.
fn decode(table: &[u8], width: Width, at: usize) -> RamdumpTable64
    requires { at + entry_size (field_size width) ≤ length table.now }
    ensures { result ≡ decoded (field_size width) (take (entry_size (field_size width)) (drop at table.now)) }
{
    let f = field_size(width);
    let save_pref = number_at(table, width, at);
    let base = number_at(table, width, at + f);
    let len = number_at(table, width, at + 2 * f);
    let description = text_at(table, at + 3 * f);
    let filename = text_at(table, at + 3 * f + 20);
    RamdumpTable64 {
        save_pref,
        base,
        len,
        description,
        filename,
    }
}

// Entry i of a table, where it lies whole within it.
#[tactic(auto, using(crate::proofs::Laws::there_below, crate::proofs::Laws::there_fits), unfolding(crate::specs::Entry::entry_at))]
pub fn entry_at(table: &[u8], width: Width, i: usize) -> Option<RamdumpTable64>
    ensures { result ≡ entry_at (field_size width) table.now i }
{
    if entries_in(width, table.len()) <= i {
        return None;
    }
    Some(decode(table, width, entry_size(width) * i))
}
