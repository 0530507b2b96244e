// Texts, table entries, their selection and their sheet.
use crate::show;
use crate::show::Hex;
use crate::text::Line;
use entry::{RamdumpTable64, entry_at};
use field::Width;
use filename::{check_after_open, check_open, stem_len};
use refusal::Refusal;
use selection::{is_selected, next_selected};
use sheet::region_sheet;
use std::io;
use std::io::Write;

// u BYTES
pub(crate) fn utf8_valid<W: Write>(to: &mut W, line: Line<'_>) -> io::Result<()> {
    let mut s = [0; 1024];
    let s = line.bytes(1, &mut s);
    show::flag(to, utf8::valid(s))
}

fn stem_of(name: &[u8]) -> &[u8] {
    &name[..stem_len(name)]
}

// t NAME: the stem's bytes.
pub(crate) fn stem<W: Write>(to: &mut W, line: Line<'_>) -> io::Result<()> {
    let mut name = [0; 1024];
    let name = line.bytes(1, &mut name);
    write!(to, "{}", Hex(stem_of(name)))
}

// o NAME
pub(crate) fn opening<W: Write>(to: &mut W, line: Line<'_>) -> io::Result<()> {
    let mut name = [0; 1024];
    let name = line.bytes(1, &mut name);
    show::checked(to, check_open(name))
}

// p NAME
pub(crate) fn opened<W: Write>(to: &mut W, line: Line<'_>) -> io::Result<()> {
    let mut name = [0; 1024];
    let name = line.bytes(1, &mut name);
    show::checked(to, check_after_open(name))
}

fn entry<W: Write>(to: &mut W, e: RamdumpTable64) -> io::Result<()> {
    write!(to, "entry {:x} {:x} {:x}", e.save_pref, e.base, e.len)?;
    write!(to, " {} {}", Hex(&e.description), Hex(&e.filename))
}

fn entry_or_none<W: Write>(to: &mut W, x: Option<RamdumpTable64>) -> io::Result<()> {
    match x {
        Some(e) => entry(to, e),
        None => write!(to, "none"),
    }
}

// The width of a table's numbers, in bits.
pub(crate) fn width(line: Line<'_>) -> Width {
    Width::try_from(u64::from(line.number(1))).unwrap_or(Width::Bits64)
}

// e WIDTH TABLE INDEX
pub(crate) fn decode_entry<W: Write>(to: &mut W, line: Line<'_>) -> io::Result<()> {
    let mut table = [0; 1024];
    let table = line.bytes(2, &mut table);
    entry_or_none(to, entry_at(table, width(line), line.index(3)))
}

// x WIDTH TABLE INDEX NAMES
pub(crate) fn selected<W: Write>(to: &mut W, line: Line<'_>) -> io::Result<()> {
    let mut table = [0; 1024];
    let table = line.bytes(2, &mut table);
    let mut names = [0; 1024];
    let names = line.bytes(4, &mut names);
    show::flag(to, is_selected(table, width(line), line.index(3), names))
}

// y WIDTH TABLE ENTRIES NAMES FROM
pub(crate) fn next<W: Write>(to: &mut W, line: Line<'_>) -> io::Result<()> {
    let mut table = [0; 1024];
    let table = line.bytes(2, &mut table);
    let mut names = [0; 1024];
    let names = line.bytes(4, &mut names);
    let next = next_selected(table, width(line), line.index(3), names, line.index(5));
    write!(to, "{next}")
}

// r WIDTH TABLE SIZE: the region sheet on a page of SIZE bytes of 0xAA, and the whole page afterwards.
pub(crate) fn sheet<W: Write>(to: &mut W, line: Line<'_>) -> io::Result<()> {
    let mut table = [0; 1024];
    let table = line.bytes(2, &mut table);
    let size = line.index(3);
    if 1024 < size {
        return show::nothing(to);
    }
    let mut page = [0xAA; 1024];
    let page = &mut page[..size];
    show::made(to, region_sheet(table, width(line), page))?;
    write!(to, " {}", Hex(page))
}
