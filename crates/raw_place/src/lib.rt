// A step of a session where it stands. Those that a region repeats, the empty read, bytes handed out and each memory read behind the first, are made on its
// numbers, by the same function as a session's; all others are left to the step that reads the session and puts it back.
#![tactic(auto)]

ghost use Rattle.std.specs.Prelude.{◌≡◌};
ghost use Rattle.raw.specs.Raw.{stepped_at, told_in};
ghost use Rattle.in_place.specs.Place.{raw_at, waits_at};
ghost use Rattle.raw_step.specs.RawStep.{raw_outcome, step_raw, wanted_raw};
ghost use Rattle.raw_place.specs.Place.{ready_at};

use bundle::{check_images, check_names};
use in_place::{
    BACKEND, COMMAND, COUNT, MODE, PHASE, READS, REGION, WIDTH, count, in_region, placed,
    region_at, waits_at,
};
use raw::{RawPlaced, RawSession, told};
use region_phase::{Advance, advance_region};
use session::Answer;

// A session in a region, and none of 1 and 2 refuses its step.
fn ready(head: &[u32; 4], numbers: &[u64; 9], set: &[u8], names: &[u8]) -> bool
    ensures { result ≡ ready_at head.now numbers.now set.now names.now }
{
    in_region(head, numbers) && check_images(set).is_ok() && check_names(names).is_ok()
}

// A step with the session in place: mode, command, backend and phase; reads, count, at, base, len, done, outstanding, due and width; the window. In a region,
// what neither begins nor closes it changes only its numbers.
pub fn step_in_place(
    head: &mut [u32; 4],
    numbers: &mut [u64; 9],
    window: &mut [u8; 48],
    delivery: &[u8],
    set: &[u8],
    names: &[u8],
    table: &mut [u8],
    reply: &mut [u8],
    out: &mut [u8],
) -> RawPlaced
    ensures { (raw_outcome (stepped_at (raw_at head.new numbers.new window.new) (told_in result))
        table.new reply.new out.new
        ≡ step_raw (raw_at head.old numbers.old window.old)
        delivery.now set.now names.now table.old reply.old out.old)
        × (result.waits ≡ waits_at numbers.new) }
{
    if !ready(head, numbers, set, names) {
        let t = raw_step::step(
            head, numbers, window, delivery, set, names, table, reply, out,
        );
        return placed(t, numbers);
    }
    let x = region_at(numbers);
    let opening = raw::opening_of(head[MODE], head[COMMAND], head[BACKEND]);
    let width = raw::width_of(numbers[WIDTH]);
    let k = numbers[COUNT] as usize;
    let came = delivery.len();
    match advance_region(width, opening, numbers[READS], k, x, came, table, out) {
        Ok(Advance::To(c)) => {
            let t = count(numbers, c);
            placed(t, numbers)
        }
        Ok(Advance::Waits) => placed(told(0, Answer::Go), numbers),
        _ => {
            // in a region no step looks at the image set and the names, and these were judged: empty ones are judged faster than they would be again
            let empty = [0u8; 8];
            let t = raw_step::step(
                head, numbers, window, delivery, &empty, &empty, table, reply, out,
            );
            placed(t, numbers)
        }
    }
}

// How many bytes the next step asks for: 0 where it needs none.
#[tactic(auto, using(raw_step::proofs::Laws::wanted_no, raw_step::proofs::Laws::wanted_is))]
pub fn wanted(s: RawSession) -> usize
    ensures { result ≡ wanted_raw s }
{
    if !raw::is_session(s) {
        return 0;
    }
    waiting::wanted(raw::session_of(s))
}

// The same of a session in place. In a region, where it is asked most, the numbers are at hand.
#[tactic(auto, using(crate::proofs::Repeats::wanted_none, crate::proofs::Repeats::wanted_at))]
pub fn wanted_in_place(head: &[u32; 4], numbers: &[u64; 9], window: &[u8; 48]) -> usize
    ensures { result ≡ wanted_raw (raw_at head.now numbers.now window.now) }
{
    if head[PHASE] != REGION {
        return wanted(in_place::raw_at(head, numbers, window));
    }
    if in_region(head, numbers) {
        waits_at(numbers) as usize
    } else {
        0
    }
}
