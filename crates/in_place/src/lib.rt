// A session in place, as numbers behind references: read, put back, and in a region its counts.
#![tactic(auto)]

ghost use Rattle.std.specs.Prelude.{◌≡◌};
ghost use Rattle.raw.specs.Raw.{told_of, stepped_at, told_in};
ghost use Rattle.in_place.specs.Place.{raw_at, waits_at, in_region, region_at, counted_at};

use field::Width;
use raw::{RawPlaced, RawSession, RawStepped, RawTold, told};
use session::{Counted, Region};

// A session in place, three arrays as C lends them: head has its mode, command, backend and phase; numbers its memory reads, count, place, base, length, bytes done and outstanding,
// whether an empty read is due, and its width.
pub const MODE: usize = 0;

pub const COMMAND: usize = 1;

pub const BACKEND: usize = 2;

pub const PHASE: usize = 3;

pub const READS: usize = 0;

pub const COUNT: usize = 1;

pub const AT: usize = 2;

pub const BASE: usize = 3;

pub const LEN: usize = 4;

pub const DONE: usize = 5;

pub const OUTSTANDING: usize = 6;

pub const DUE: usize = 7;

pub const WIDTH: usize = 8;

// What stands at DUE where an empty read is due; 0 where none is.
pub const IS_DUE: u64 = 1;

// The number of the phase in a region.
pub const REGION: u32 = 5;

// The numbers of a session in place.
pub fn raw_at(head: &[u32; 4], numbers: &[u64; 9], window: &[u8; 48]) -> RawSession
    ensures { result ≡ raw_at head.now numbers.now window.now }
{
    let window = *window;
    RawSession {
        mode: head[MODE],
        command: head[COMMAND],
        backend: head[BACKEND],
        phase: head[PHASE],
        reads: numbers[READS],
        count: numbers[COUNT] as usize,
        at: numbers[AT] as usize,
        base: numbers[BASE],
        len: numbers[LEN],
        done: numbers[DONE],
        outstanding: numbers[OUTSTANDING],
        due: numbers[DUE],
        width: numbers[WIDTH],
        window,
    }
}

// What a step gave, put in place.
pub fn put_back(
    t: RawStepped,
    head: &mut [u32; 4],
    numbers: &mut [u64; 9],
    window: &mut [u8; 48],
) -> RawTold
    ensures { stepped_at (raw_at head.new numbers.new window.new) result ≡ t }
{
    let s = t.session;
    let bytes = s.window;
    *head = [s.mode, s.command, s.backend, s.phase];
    *numbers = [
        s.reads,
        s.count as u64,
        s.at as u64,
        s.base,
        s.len,
        s.done,
        s.outstanding,
        s.due,
        s.width,
    ];
    *window = bytes;
    RawTold {
        taken: t.taken,
        first: t.first,
        second: t.second,
        answer: t.answer,
    }
}

// The numbers of a region's step, and what is told. Those that stay are given back as they are, which the compiler leaves out.
pub fn count(numbers: &mut [u64; 9], c: Counted) -> RawTold
    ensures { (result ≡ told_of c.taken c.answer) × (numbers.new ≡ counted_at numbers.old c) }
{
    *numbers = [
        c.reads,
        numbers[COUNT],
        numbers[AT],
        numbers[BASE],
        numbers[LEN],
        c.region.done,
        c.region.outstanding,
        u64::from(c.region.due),
        numbers[WIDTH],
    ];
    told(c.taken, c.answer)
}

// The numbers of a session in a region.
pub fn in_region(head: &[u32; 4], numbers: &[u64; 9]) -> bool
    ensures { result ≡ in_region head.now numbers.now }
{
    head[PHASE] == REGION
        && numbers[DUE] < 2
        && Width::try_from(numbers[WIDTH]).is_ok()
        && raw::is_opening(head[MODE], head[COMMAND], head[BACKEND])
}

// The region that the numbers tell.
pub fn region_at(numbers: &[u64; 9]) -> Region
    ensures { result ≡ region_at numbers.now }
{
    Region {
        entry: numbers[AT] as usize,
        base: numbers[BASE],
        len: numbers[LEN],
        done: numbers[DONE],
        outstanding: numbers[OUTSTANDING],
        due: numbers[DUE] == IS_DUE,
    }
}

// The bytes that are outstanding and wait for no empty read.
pub fn waits_at(numbers: &[u64; 9]) -> u64
    ensures { result ≡ waits_at numbers.now }
{
    if numbers[DUE] == IS_DUE {
        0
    } else {
        numbers[OUTSTANDING]
    }
}

// What a step told, and the bytes that the next one waits for.
pub fn placed(t: RawTold, numbers: &[u64; 9]) -> RawPlaced
    ensures { (told_in result ≡ t) × (result.waits ≡ waits_at numbers.now) }
{
    RawPlaced {
        taken: t.taken,
        first: t.first,
        second: t.second,
        answer: t.answer,
        waits: waits_at(numbers),
    }
}
