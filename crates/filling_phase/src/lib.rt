// The response and table phases of a step: a lent buffer is filled.
#![tactic(auto)]

ghost use Rattle.std.specs.Prelude.{◌≡◌, ◌-◌, ◌≤◌, min, length};
ghost use Rattle.std.proofs.Math.Seq.{paste};
ghost use Rattle.build.specs.Build.{front};
ghost use Rattle.base.specs.Told.{Tells};
ghost use Rattle.session.specs.Answers.{outcome_told};
ghost use Rattle.session.specs.Outcome.{outcome};
ghost use Rattle.session.specs.Guard.{response_step, switched_step, table_step};

use build::{Request, build};
use copy::copy_into;
use limits::filling_limit;
use session::{Answer, Filling, Phase, Session, Stepped};
use turn::{guard, moved, untouched};
use verdict::Finish;

// Fills in what the delivery has of the bytes that are missing: how many.
fn fill(x: Filling, buffer: &mut [u8], delivery: &[u8]) -> usize
    requires { (x.declared ≤ length buffer.old) × (x.filled ≤ x.declared) }
    ensures { (result ≡ min (x.declared - x.filled) (length delivery.now))
        × (buffer.new ≡ paste buffer.old x.filled delivery.now result) }
{
    let n = (x.declared - x.filled).min(delivery.len());
    copy_into(buffer, x.filled, delivery, n);
    n
}

// SwitchMode, built: how many bytes are to be sent.
#[tactic(auto, using(build::proofs::Laws::build_long))]
fn switch_mode(out: &mut [u8]) -> usize
    requires { 48 ≤ length out.old }
    ensures { (result ≡ 12) × (out.new ≡ front Request.SwitchMode out.old) }
{
    build(out, Request::SwitchMode).unwrap()
}

// Bytes of the response; with the last of them, and for a response without bytes, SwitchMode is sent.
#[tactic(auto, unfolding(session::specs::Guard::response_step, session::specs::FillingPhase::response_of, turn::specs::Turn::guard_of))]
pub fn response_step(
    s: Session,
    x: Filling,
    delivery: &[u8],
    table: &[u8],
    reply: &mut [u8],
    out: &mut [u8],
) -> Stepped
    ensures { Tells outcome_told (outcome result table.now reply.new out.new)
        (response_step s x delivery.now table.now reply.old out.old) }
{
    if let Err(why) = guard(s, filling_limit(x, reply), out) {
        return untouched(s, why);
    }
    let declared = x.declared;
    let n = fill(x, reply, delivery);
    let received = x.filled + n;
    if received < declared {
        let next = Filling {
            declared,
            filled: received,
        };
        return moved(s, Phase::Response(next), n, Answer::Go);
    }
    let k = switch_mode(out);
    moved(s, Phase::Switched(declared), n, Answer::Send(k))
}

// A whole response is there and SwitchMode is sent: finished (4).
#[tactic(auto, unfolding(session::specs::Guard::switched_step, session::specs::FillingPhase::switched_of, turn::specs::Turn::guard_of))]
pub fn switched_step(s: Session, k: usize, table: &[u8], reply: &[u8], out: &[u8]) -> Stepped
    ensures { Tells outcome_told (outcome result table.now reply.now out.now)
        (switched_step s k table.now reply.now out.now) }
{
    if let Err(why) = guard(s, reply.len() < k, out) {
        return untouched(s, why);
    }
    moved(
        s,
        Phase::Ended(k),
        0,
        Answer::Finished(Finish::Reply, s.reads),
    )
}

// Bytes of the table; the last of them, and a table without bytes, go on to the regions.
#[tactic(auto, unfolding(session::specs::Guard::table_step, session::specs::FillingPhase::table_of, turn::specs::Turn::guard_of))]
pub fn table_step(
    s: Session,
    x: Filling,
    delivery: &[u8],
    table: &mut [u8],
    reply: &[u8],
    out: &[u8],
) -> Stepped
    ensures { Tells outcome_told (outcome result table.new reply.now out.now)
        (table_step s x delivery.now table.old reply.now out.now) }
{
    if let Err(why) = guard(s, filling_limit(x, table), out) {
        return untouched(s, why);
    }
    let declared = x.declared;
    let n = fill(x, table, delivery);
    let filled = x.filled + n;
    if filled < declared {
        return moved(s, Phase::Table(Filling { declared, filled }), n, Answer::Go);
    }
    moved(s, Phase::Between(declared, 0), n, Answer::Go)
}
