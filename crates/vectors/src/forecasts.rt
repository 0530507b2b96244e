// How large a fetch will be, of a table and of a list of entries.
use crate::text::Line;
use crate::{regions, show};
use entry::{RamdumpTable64, entry_at};
use field::Width;
use forecast::{forecast_of, forecast_table};
use forecast_sums::Forecast;
use refusal::Refusal;
use std::io::Write;
use std::{array, io};

fn foreseen<W: Write>(to: &mut W, x: Result<Forecast, Refusal>) -> io::Result<()> {
    match x {
        Ok(f) => write!(to, "needs {:x} {:x} {:x}", f.regions, f.bytes, f.reads),
        Err(why) => show::refused(to, why),
    }
}

// f WIDTH TABLE NAMES
pub(crate) fn of_table<W: Write>(to: &mut W, line: Line<'_>) -> io::Result<()> {
    let mut table = [0; 640];
    let table = line.bytes(2, &mut table);
    let mut names = [0; 640];
    let names = line.bytes(3, &mut names);
    foreseen(to, forecast_table(table, regions::width(line), names))
}

// An entry of zeros.
const NONE: RamdumpTable64 = RamdumpTable64 {
    save_pref: 0,
    base: 0,
    len: 0,
    description: [0; 20],
    filename: [0; 20],
};

// The first eight entries of a table; one that it does not have is zeros.
fn eight(table: &[u8], width: Width) -> [RamdumpTable64; 8] {
    array::from_fn(|i| entry_at(table, width, i).unwrap_or(NONE))
}

// g WIDTH TABLE NAMES N: of the first N of eight entries, lent as a list.
pub(crate) fn of_list<W: Write>(to: &mut W, line: Line<'_>) -> io::Result<()> {
    let mut table = [0; 640];
    let table = line.bytes(2, &mut table);
    let mut names = [0; 640];
    let names = line.bytes(3, &mut names);
    let entries = eight(table, regions::width(line));
    foreseen(to, forecast_of(entries, line.index(4), names))
}
