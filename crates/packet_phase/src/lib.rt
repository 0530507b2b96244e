// The packet phase of a step: bytes are held up to the packet's end, then the packet is judged and acted on.
#![tactic(auto)]

ghost use Rattle.std.specs.Prelude.{◌≡◌, List, ℕ};
ghost use Rattle.base.specs.Told.{Tells};
ghost use Rattle.session.specs.Answers.{outcome_told};
ghost use Rattle.session.specs.Outcome.{outcome, gives, holding, ended};
ghost use Rattle.session.specs.PacketPhase.{keep, acted, whole_of, sized_of, packet_of};
ghost use Rattle.session.specs.Guard.{packet_step};
ghost use Rattle.packet_phase.specs.Acting.{put};

use build::{Request, build};
use copy::copy_into;
use limits::{held_limit, length_in};
use packet::sahara_read_packet_length;
use packet_verdict::judge;
use refusal::Refusal;
use session::{Answer, Filling, Phase, Session, Stepped};
use turn::{guard, untouched};
use verdict::Verdict;

// What is to be done: a packet is sent, or this is answered.
#[derive(Clone, Copy)]
pub enum Doing {
    Send(Request),
    Tell(Answer),
}

// What a step comes to before anything is built: the session from then on, the bytes taken, and what is to be done.
#[derive(Clone, Copy)]
pub struct Acting {
    pub session: Session,
    pub taken: usize,
    pub doing: Doing,
}

// The window with bytes x behind the held ones; what passes 48 bytes is not kept.
fn kept(window: [u8; 48], held: usize, x: &[u8]) -> [u8; 48]
    ensures { result ≡ keep window held x.now }
{
    let mut w = window;
    let n = 48usize.saturating_sub(held).min(x.len());
    copy_into(&mut w, held, x, n);
    w
}

// The session with another window, in another phase.
fn holding(s: Session, w: [u8; 48], phase: Phase) -> Session
    ensures { result ≡ holding s w phase }
{
    Session {
        window: w,
        phase,
        ..s
    }
}

// The session ended.
fn ended(s: Session) -> Session
    ensures { result ≡ ended s }
{
    Session {
        phase: Phase::Ended(0),
        ..s
    }
}

// What a verdict does; w is the window with the packet's bytes.
fn act(s: Session, taken: usize, w: [u8; 48], v: Result<Verdict, Refusal>) -> Acting
    ensures { (t y o : List ℕ) → put result t y o ≡ acted s taken w t y o v }
{
    let (session, doing) = match v {
        Ok(Verdict::Reply(q)) => (holding(s, w, Phase::Packet(0)), Doing::Send(q)),
        Ok(Verdict::Image(start, k)) => (
            holding(s, w, Phase::Packet(0)),
            Doing::Tell(Answer::Image(start, k)),
        ),
        Ok(Verdict::Pass) => (holding(s, w, Phase::Packet(0)), Doing::Tell(Answer::Go)),
        Ok(Verdict::Finish(how)) => (ended(s), Doing::Tell(Answer::Finished(how, s.reads))),
        Ok(Verdict::Respond(command, declared)) => (
            holding(
                s,
                w,
                Phase::Response(Filling {
                    declared,
                    filled: 0,
                }),
            ),
            Doing::Send(Request::ExecuteData(command)),
        ),
        Ok(Verdict::Debug(width, addr, len)) => {
            let table = Filling {
                declared: len as usize,
                filled: 0,
            };
            let session = Session {
                reads: 1,
                width,
                window: w,
                phase: Phase::Table(table),
                ..s
            };
            (session, Doing::Send(Request::MemRead(width, addr, len)))
        }
        Err(why) => (ended(s), Doing::Tell(Answer::Refused(why))),
    };
    Acting {
        session,
        taken,
        doing,
    }
}

// A packet to go on with: so many of its bytes are held.
fn holds(s: Session, held: usize, w: [u8; 48], taken: usize) -> Acting
    ensures { (t y o : List ℕ) → put result t y o ≡ outcome (gives (holding s w (Phase.Packet held)) taken Answer.Go) t y o }
{
    Acting {
        session: holding(s, w, Phase::Packet(held)),
        taken,
        doing: Doing::Tell(Answer::Go),
    }
}

// The packet is whole: its bytes, or the first 48 of them, stand in the window w.
#[tactic(auto, unfolding(session::specs::PacketPhase::whole_of))]
fn whole(s: Session, taken: usize, w: [u8; 48], set: &[u8], table: &[u8], reply: &[u8]) -> Acting
    ensures { (o : List ℕ) → put result table.now reply.now o ≡ whole_of s taken w set.now table.now reply.now o }
{
    let k = (length_in(w) as usize).min(48);
    let v = judge(s.opening, set, table.len(), reply.len(), &w[..k]);
    act(s, taken, w, v)
}

// The header is whole, and size is its length field.
#[tactic(auto, unfolding(session::specs::PacketPhase::sized_of))]
fn body(
    s: Session,
    held: usize,
    delivery: &[u8],
    size: u32,
    set: &[u8],
    table: &[u8],
    reply: &[u8],
) -> Acting
    ensures { (o : List ℕ) → put result table.now reply.now o
        ≡ sized_of s held delivery.now size set.now table.now reply.now o }
{
    if let Err(why) = sahara_read_packet_length(size) {
        return Acting {
            session: ended(s),
            taken: 8usize.saturating_sub(held),
            doing: Doing::Tell(Answer::Refused(why)),
        };
    }
    let left = (size as usize).saturating_sub(held);
    let n = left.min(delivery.len());
    let w = kept(s.window, held, &delivery[..n]);
    if n < left {
        return holds(s, held + n, w, n);
    }
    whole(s, n, w, set, table, reply)
}

// Bytes of a packet, up to its end.
#[tactic(auto, unfolding(session::specs::PacketPhase::packet_of))]
fn packet(
    s: Session,
    held: usize,
    delivery: &[u8],
    set: &[u8],
    table: &[u8],
    reply: &[u8],
) -> Acting
    ensures { (o : List ℕ) → put result table.now reply.now o
        ≡ packet_of s held delivery.now set.now table.now reply.now o }
{
    let n = delivery.len();
    let w = kept(s.window, held, delivery);
    if n < 8usize.saturating_sub(held) {
        return holds(s, held + n, w, n);
    }
    body(s, held, delivery, length_in(w), set, table, reply)
}

// A step of the packet phase, so many bytes of a packet being held: 3, then 18, then the packet's bytes.
#[tactic(auto, using(build::proofs::Laws::build_long), unfolding(session::specs::Guard::packet_step, turn::specs::Turn::guard_of))]
pub fn packet_step(
    s: Session,
    held: usize,
    delivery: &[u8],
    set: &[u8],
    table: &[u8],
    reply: &[u8],
    out: &mut [u8],
) -> Stepped
    ensures { Tells outcome_told (outcome result table.now reply.now out.new)
        (packet_step s held delivery.now set.now table.now reply.now out.old) }
{
    if let Err(why) = guard(s, held_limit(s.window, held), out) {
        return untouched(s, why);
    }
    let a = packet(s, held, delivery, set, table, reply);
    let answer = match a.doing {
        Doing::Send(q) => Answer::Send(build(out, q).unwrap()),
        Doing::Tell(answer) => answer,
    };
    Stepped {
        session: a.session,
        taken: a.taken,
        answer,
    }
}
