// What a forecast counts, one entry at a time: the regions, their bytes and the memory reads.
#![tactic(auto)]

ghost use Rattle.std.specs.Prelude.{◌≡◌};
ghost use Rattle.verdict.specs.Opening.{chunks_in};
ghost use Rattle.forecast_sums.specs.Forecast.{forecast_chunk};
ghost use Rattle.forecast_sums.specs.Sums.{start_of, more_of, add_of};

use bundle::check_names;
use entry::RamdumpTable64;
use refusal::Refusal;
use selection::selects;

// The regions, their bytes, and the memory reads, the table's among them.
#[derive(Clone, Copy, Debug, PartialEq, Eq)]
pub struct Forecast {
    pub regions: u64,
    pub bytes: u64,
    pub reads: u64,
}

// The most that one memory read asks for.
const CHUNK: u64 = 4096;

// How many memory reads ask for so many bytes.
#[tactic(auto, unfolding(crate::specs::Forecast::forecast_chunk))]
fn chunk_reads(len: u64) -> u64
    ensures { result ≡ chunks_in forecast_chunk len }
{
    len.div_ceil(CHUNK)
}

// Before the first entry: the table's read.
pub fn start(names: &[u8]) -> Result<Forecast, Refusal>
    ensures { result ≡ start_of names.now }
{
    check_names(names).or(Err(Refusal::ForecastNames))?;
    Ok(Forecast {
        regions: 0,
        bytes: 0,
        reads: 1,
    })
}

// With a selected region more; what is refused stays so. No sum is made that passes 2^64 - 1; the regions are counted modulo 2^64, and no list has so many.
pub fn more(sums: Result<Forecast, Refusal>, len: u64) -> Result<Forecast, Refusal>
    ensures { result ≡ more_of forecast_chunk sums len }
{
    let f = sums?;
    let bytes = f.bytes.checked_add(len).ok_or(Refusal::ForecastSum)?;
    let reads = f
        .reads
        .checked_add(chunk_reads(len))
        .ok_or(Refusal::ForecastSum)?;
    Ok(Forecast {
        regions: f.regions.wrapping_add(1),
        bytes,
        reads,
    })
}

// With an entry more, selected or not.
#[tactic(auto, unfolding(crate::specs::Forecast::is_selected))]
pub fn add(
    sums: Result<Forecast, Refusal>,
    e: RamdumpTable64,
    names: &[u8],
) -> Result<Forecast, Refusal>
    ensures { result ≡ add_of forecast_chunk names.now sums e }
{
    if !selects(names, e) {
        return sums;
    }
    more(sums, e.len)
}
