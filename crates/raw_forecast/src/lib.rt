// How large the fetch of a table will be, by a width that is a number, as numbers: what crosses to C and Rust.
#![tactic(auto)]

ghost use Rattle.std.specs.Prelude.{◌≡◌};
ghost use Rattle.raw_records.specs.Records.{raw_forecast};
ghost use Rattle.raw_forecast.specs.RawForecast.{forecast_raw};

use field::Width;
use raw_records::RawForecast;

// Of a table of a width of 32 or 64 bits. Of any other width there is no entry.
#[tactic(auto, unfolding(crate::specs::RawForecast::forecast_raw))]
pub fn forecast_table(table: &[u8], width: u64, names: &[u8]) -> RawForecast
    ensures { result ≡ raw_forecast (forecast_raw table.now width names.now) }
{
    RawForecast::from(match Width::try_from(width) {
        Ok(width) => forecast::forecast_table(table, width, names),
        Err(_) => forecast::forecast(&[], names),
    })
}
