// Selection of table entries by preference or by name.
#![tactic(auto)]

ghost use Rattle.std.specs.Prelude.{◌≡◌, map, ◌-◌};
ghost use Rattle.field.specs.Field.{field_size};
ghost use Rattle.selection.specs.Selection.{low, names_from, member, selected_by, selected_at, next_of};

use bundle::{Slot, SlotNumber, slot_at};
use entry::{RamdumpTable64, entry_at};
use field::{Width, padded};
use filename::stem_len;

// A letter of A..Z lowered; any other byte is itself. The library's method, under the name that docs/CLAIMS.md has for this promise.
#[tactic(auto, using(crate::proofs::Laws::low_is))]
pub fn lower(b: u8) -> u8
    ensures { result ≡ low b }
{
    b.to_ascii_lowercase()
}

// Whether a stem is one of n names, both sides lowered. A name of another length is left at once, one of the stem's length at the first byte that differs,
// and the search at the first name that is the stem.
#[tactic(auto, using(crate::proofs::Laws::name_steps))]
fn named(names: &[u8], n: usize, stem: &[u8]) -> bool
    ensures { result ≡ member (map low stem.now) (map (map low) (names_from names.now n 0)) }
{
    for i in 0..n {
        if let Slot::At(start, size) = slot_at(names, SlotNumber(i)) {
            if size == stem.len() && names[start..start + size].eq_ignore_ascii_case(stem) {
                return true;
            }
        }
    }
    false
}

// Whether names select an entry: none by its preference, else by its stem.
#[tactic(auto, using(filename::proofs::Laws::stem_take, filename::proofs::Laws::length_stem))]
pub fn selects(names: &[u8], entry: RamdumpTable64) -> bool
    ensures { result ≡ selected_by names.now entry.save_pref entry.filename }
{
    let n = padded::<u32>(names, 0) as usize;
    if n == 0 {
        return entry.save_pref != 0;
    }
    let filename = entry.filename;
    let size = stem_len(&filename);
    named(names, n, &filename[..size])
}

// Whether entry i of a table is there and selected.
#[tactic(auto, using(entry::proofs::Laws::entry_untold, crate::proofs::Laws::selected_missing, crate::proofs::Laws::selected_told))]
pub fn is_selected(table: &[u8], width: Width, i: usize, names: &[u8]) -> bool
    ensures { result ≡ selected_at (field_size width) names.now table.now i }
{
    match entry_at(table, width, i) {
        Some(entry) => selects(names, entry),
        None => false,
    }
}

// The first selected entry from `from` on and before `entries`; `entries` where there is none (`from` where it is not below `entries`). The search ends
// with the table: of what lies behind it nothing is selected, however many entries are named.
#[tactic(auto, using(crate::proofs::Laws::next_steps))]
pub fn next_selected(table: &[u8], width: Width, entries: usize, names: &[u8], from: usize) -> usize
    ensures { result ≡ next_of (field_size width) names.now table.now (entries - from) from }
{
    for i in from..entries {
        let Some(entry) = entry_at(table, width, i) else {
            return entries;
        };
        if selects(names, entry) {
            return i;
        }
    }
    from.max(entries)
}
