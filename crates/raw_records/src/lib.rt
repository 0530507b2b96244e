// A table entry, an image range, a check, a built packet, the answers of a region sheet and of a tidying and a forecast as plain numbers: what crosses to C and
// Rust.
#![tactic(auto)]

ghost use Rattle.std.specs.Prelude.{◌≡◌};
ghost use Rattle.raw_records.specs.Records.{refused_number, raw_entry, raw_range, raw_sheet, raw_forecast, raw_tidied};

use entry::RamdumpTable64;
use forecast_sums::Forecast;
use refusal::Refusal;

#[repr(C)]
#[derive(Clone, Copy)]
pub struct RawEntry {
    pub save_pref: u64,
    pub base: u64,
    pub len: u64,
    pub description: [u8; 20],
    pub filename: [u8; 20],
    pub there: u32,
}

#[repr(C)]
#[derive(Clone, Copy)]
pub struct RawRange {
    pub start: usize,
    pub len: usize,
    pub refused: u32,
}

#[repr(C)]
#[derive(Clone, Copy)]
pub struct RawSheet {
    pub written: usize,
    pub refused: u32,
}

#[repr(C)]
#[derive(Clone, Copy)]
pub struct RawForecast {
    pub regions: u64,
    pub bytes: u64,
    pub reads: u64,
    pub refused: u32,
}

#[repr(C)]
#[derive(Clone, Copy)]
pub struct RawTidied {
    pub len: usize,
    pub refused: u32,
}

// 0 where something is there, else the refusal.
pub fn refused_number<A: Drop>(x: Result<A, Refusal>) -> u32
    ensures { result ≡ refused_number x }
{
    match x {
        Ok(_) => 0,
        Err(why) => u8::from(why) as u32,
    }
}

impl From<Option<RamdumpTable64>> for RawEntry {
    ghost from_gives = { λ e r. r ≡ raw_entry e };

    fn from(e: Option<RamdumpTable64>) -> RawEntry {
        match e {
            Some(e) => {
                let description = e.description;
                let filename = e.filename;
                RawEntry {
                    save_pref: e.save_pref,
                    base: e.base,
                    len: e.len,
                    description,
                    filename,
                    there: 1,
                }
            }
            None => RawEntry {
                save_pref: 0,
                base: 0,
                len: 0,
                description: [0; 20],
                filename: [0; 20],
                there: 0,
            },
        }
    }
}

impl From<Result<(usize, usize), Refusal>> for RawRange {
    ghost from_gives = { λ x r. r ≡ raw_range x };

    fn from(x: Result<(usize, usize), Refusal>) -> RawRange {
        let refused = refused_number(x);
        let (start, len) = x.unwrap_or_default();
        RawRange {
            start,
            len,
            refused,
        }
    }
}

impl From<Result<usize, Refusal>> for RawSheet {
    ghost from_gives = { λ x r. r ≡ raw_sheet x };

    fn from(x: Result<usize, Refusal>) -> RawSheet {
        RawSheet {
            written: x.unwrap_or_default(),
            refused: refused_number(x),
        }
    }
}

impl From<Result<Forecast, Refusal>> for RawForecast {
    ghost from_gives = { λ x r. r ≡ raw_forecast x };

    fn from(x: Result<Forecast, Refusal>) -> RawForecast {
        let refused = refused_number(x);
        let f = x.unwrap_or(Forecast {
            regions: 0,
            bytes: 0,
            reads: 0,
        });
        RawForecast {
            regions: f.regions,
            bytes: f.bytes,
            reads: f.reads,
            refused,
        }
    }
}

impl From<Result<usize, Refusal>> for RawTidied {
    ghost from_gives = { λ x r. r ≡ raw_tidied x };

    fn from(x: Result<usize, Refusal>) -> RawTidied {
        RawTidied {
            len: x.unwrap_or_default(),
            refused: refused_number(x),
        }
    }
}
