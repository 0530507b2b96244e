// The region sheet: a line of text for each entry of a memory table, written to a lent page.
#![tactic(auto)]

ghost use Rattle.std.specs.Prelude.{◌≡◌, ◌+◌, ◌*◌, ◌<◌, ◌≤◌, length, get_or};
ghost use Rattle.std.proofs.lemmas.List.Edits.{sets};
ghost use Rattle.base.specs.Told.{Tells};
ghost use Rattle.field.specs.Field.{field_size};
ghost use Rattle.entry.specs.Entry.{entries_in};
ghost use Rattle.filename.specs.Filename.{before};
ghost use Rattle.sheet.specs.Sheet.{
  printed,
  columns,
  digit,
  hex,
  mark,
  line_of,
  lines_of,
  sheet_outcome,
  sheet_outcome_told,
  sheet_of,
};

use entry::{RamdumpTable64, entries_in, entry_at};
use field::Width;
use filename::find;
use refusal::Refusal;

// The bytes of a line.
const LINE: usize = 57;

// The columns of a filename.
const COLUMNS: usize = 20;

// A byte of a filename as it is printed.
#[tactic(auto, unfolding(crate::specs::Sheet::printed))]
fn printed_byte(b: u8) -> u8
    ensures { result ≡ printed b }
{
    match b {
        0x20..=0x7e => b,
        _ => b'?',
    }
}

// Column j of a filename of which k bytes stand before its first zero.
#[tactic(auto, using(filename::proofs::Laws::length_before, crate::proofs::Laws::column_printed, crate::proofs::Laws::column_blank))]
fn column(name: &[u8], k: usize, j: usize) -> u8
    requires { (k ≡ length (before 0 name.now)) × (j < 20) }
    ensures { result ≡ get_or (columns name.now) j 0 }
{
    if j < k { printed_byte(name[j]) } else { b' ' }
}

// Writes a filename in its 20 columns.
#[tactic(auto, using(base::proofs::Lists::sets_take_more, crate::proofs::Laws::length_columns, crate::proofs::Laws::all_columns))]
fn put_name(page: &mut [u8], at: usize, name: &[u8])
    requires { (at + 20 ≤ length page.old) × (length name.now ≡ 20) }
    ensures { page.new ≡ sets page.old at (columns name.now) }
{
    let k = find(name, 0);
    for j in 0..COLUMNS {
        page[at + j] = column(name, k, j);
    }
}

// A capital hexadecimal digit.
#[tactic(auto, unfolding(crate::specs::Sheet::digit))]
fn hex_digit(d: u8) -> u8
    requires { d < 16 }
    ensures { result ≡ digit d }
{
    if d < 10 { b'0' + d } else { b'A' + (d - 10) }
}

// Writes a number in 16 hexadecimal digits, stored from the last one back.
#[tactic(auto, using(crate::proofs::Laws::hex_stored), unfolding(crate::specs::Sheet::hex))]
fn put_hex(page: &mut [u8], at: usize, v: u64)
    requires { at + 16 ≤ length page.old }
    ensures { page.new ≡ sets page.old at (hex 16 v) }
{
    let mut rest = v;
    for j in (0..16).rev() {
        page[at + j] = hex_digit((rest % 16) as u8);
        rest /= 16;
    }
}

// The mark of a preference.
#[tactic(auto, unfolding(crate::specs::Sheet::mark))]
fn mark_of(preference: u64) -> u8
    ensures { result ≡ mark preference }
{
    if preference == 0 { b' ' } else { b'*' }
}

// Writes an entry's line.
#[tactic(auto, using(crate::proofs::Laws::line_steps))]
fn put_line(page: &mut [u8], at: usize, e: RamdumpTable64)
    requires { at + 57 ≤ length page.old }
    ensures { page.new ≡ sets page.old at (line_of e) }
{
    let filename = e.filename;
    put_name(page, at, &filename);
    page[at + 20] = b' ';
    put_hex(page, at + 21, e.base);
    page[at + 37] = b' ';
    put_hex(page, at + 38, e.len);
    page[at + 54] = b' ';
    page[at + 55] = mark_of(e.save_pref);
    page[at + 56] = b'\n';
}

// Writes the lines of a table's first n entries.
#[tactic(auto, using(entry::proofs::Laws::entry_found), unfolding(crate::specs::Sheet::lines_of))]
fn put_lines(page: &mut [u8], table: &[u8], width: Width, n: usize)
    requires { (n ≤ entries_in (field_size width) (length table.now)) × (57 * n ≤ length page.old) }
    ensures { page.new ≡ sets page.old 0 (lines_of (field_size width) table.now n) }
{
    for i in 0..n {
        let e = entry_at(table, width, i).unwrap();
        put_line(page, LINE * i, e);
    }
}

// The sheet of a table, a line an entry: how many bytes of the page it is. Where the page is too short for all of them, none is written.
#[tactic(auto, using(base::proofs::Lists::sets_front, crate::proofs::Laws::length_sheet), unfolding(crate::specs::Sheet::sheet_of))]
pub fn region_sheet(table: &[u8], width: Width, page: &mut [u8]) -> Result<usize, Refusal>
    ensures { Tells sheet_outcome_told (sheet_outcome result page.new) (sheet_of (field_size width) table.now page.old) }
{
    let n = entries_in(width, table.len());
    if page.len() / LINE < n {
        return Err(Refusal::SheetPage);
    }
    put_lines(page, table, width, n);
    Ok(LINE * n)
}
