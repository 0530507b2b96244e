// A step of a session as numbers: read, stepped and put back, with the session in place.
#![tactic(auto)]

ghost use Rattle.std.specs.Prelude.{◌≡◌, ltb, length};
ghost use Rattle.base.specs.Choice.{pick};
ghost use Rattle.raw.specs.Raw.{stepped_at};
ghost use Rattle.refusal.specs.declared.Refusal.TheVariants as Refusal;
ghost use Rattle.in_place.specs.Place.{raw_at};
ghost use Rattle.raw_step.specs.RawStep.{raw_outcome, step_raw};

use bundle::{check_images, check_names};
use in_place::{put_back, raw_at};
use raw::{RawStepped, RawTold, told};
use refusal::Refusal;
use session::Answer;

// What numbers that are no session's are refused with, behind 1 and 2.
fn no_session(out: &[u8]) -> Refusal
    ensures { result ≡ pick (ltb (length out.now) 48) Refusal.OutBuffer Refusal.Limit }
{
    if out.len() < 48 {
        Refusal::OutBuffer
    } else {
        Refusal::Limit
    }
}

// A step of a session in place. Its numbers are read before 1 and 2 are judged, so that these have the registers, and told of behind them.
#[tactic(auto, using(crate::proofs::Laws::step_images, crate::proofs::Laws::step_names, crate::proofs::Laws::step_none, crate::proofs::Laws::step_formed))]
pub fn step(
    head: &mut [u32; 4],
    numbers: &mut [u64; 9],
    window: &mut [u8; 48],
    delivery: &[u8],
    set: &[u8],
    names: &[u8],
    table: &mut [u8],
    reply: &mut [u8],
    out: &mut [u8],
) -> RawTold
    ensures { raw_outcome (stepped_at (raw_at head.new numbers.new window.new) result)
        table.new reply.new out.new
        ≡ step_raw (raw_at head.old numbers.old window.old)
        delivery.now set.now names.now table.old reply.old out.old }
{
    let s = raw_at(head, numbers, window);
    let is_session = raw::is_session(s);
    if let Err(why) = check_images(set) {
        return told(0, Answer::Refused(why));
    }
    if let Err(why) = check_names(names) {
        return told(0, Answer::Refused(why));
    }
    if !is_session {
        return told(0, Answer::Refused(no_session(out)));
    }
    // the phase is made of the numbers: copied out of the session, its tag would stall the processor
    let session = raw::session_of(s);
    let p = raw::phase_of(s);
    let t = host::phase_step(session, p, delivery, set, names, table, reply, out);
    put_back(RawStepped::from(t), head, numbers, window)
}
