// How large a fetch will be: its regions, their bytes and the memory reads, from decoded entries and the names.
#![tactic(auto)]

ghost use Rattle.std.specs.Prelude.{◌≡◌, ◌≤◌, take};
ghost use Rattle.base.specs.Told.{Tells};
ghost use Rattle.field.specs.Field.{field_size};
ghost use Rattle.entry.specs.Entry.{entries_of};
ghost use Rattle.forecast_sums.specs.Forecast.{forecast_of, forecast_chunk, forecast_told};

use entry::{RamdumpTable64, entries_in, entry_at};
use field::Width;
use forecast_sums::{Forecast, add, more, start};
use refusal::Refusal;
use selection::next_selected;

// Of a list of entries.
#[tactic(auto, using(crate::proofs::Search::of_a_list))]
pub fn forecast(entries: &[RamdumpTable64], names: &[u8]) -> Result<Forecast, Refusal>
    ensures { Tells forecast_told result (forecast_of forecast_chunk entries.now names.now) }
{
    let mut sums = start(names)?;
    for e in entries {
        sums = add(Ok(sums), *e, names)?;
    }
    Ok(sums)
}

// Of the entries of a table: the selected ones are searched for as a step does it.
#[tactic(auto, using(crate::proofs::Search::of_a_table))]
pub fn forecast_table(table: &[u8], width: Width, names: &[u8]) -> Result<Forecast, Refusal>
    ensures { Tells forecast_told result (forecast_of forecast_chunk (entries_of (field_size width) table.now) names.now) }
{
    let mut sums = start(names)?;
    let n = entries_in(width, table.len());
    let mut i = next_selected(table, width, n, names, 0);
    // no `for` over all entries: tried, it takes the test out of line in a step's search, where an entry passed over then costs 100 instructions, not 30
    while i < n {
        let e = entry_at(table, width, i).unwrap();
        sums = more(Ok(sums), e.len)?;
        i = next_selected(table, width, n, names, i + 1);
    }
    Ok(sums)
}

// Of the first n of an array's entries, for a caller that has no list to lend; of n above 8, all of them. The array has its length beside it since
// docs/DECISIONS.md promises plain parameters here.
pub fn forecast_of(
    entries: [RamdumpTable64; 8],
    n: usize,
    names: &[u8],
) -> Result<Forecast, Refusal>
    ensures { Tells forecast_told result (forecast_of forecast_chunk (take n entries) names.now) }
{
    forecast(&entries[..n.min(8)], names)
}
