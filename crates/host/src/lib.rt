// The host: a session opened, one step of it, and the channel's end.
#![tactic(auto)]

ghost use Rattle.std.specs.Prelude.{◌≡◌};
ghost use Rattle.base.specs.Told.{Tells};
ghost use Rattle.session.specs.Answers.{stepped_told, outcome_told};
ghost use Rattle.session.specs.Outcome.{opened_with, outcome};
ghost use Rattle.session.specs.Guard.{phase_step};
ghost use Rattle.session.specs.Step.{step_of, closed_of};
ghost use Rattle.host.specs.Host.{opening};

use between_phase::between_step;
use bundle::{check_images, check_names};
use command::{SaharaCmdModeCmd, SaharaMode};
use field::Width;
use filling_phase::{response_step, switched_step, table_step};
use packet_phase::packet_step;
use refusal::Refusal;
use region_phase::region_step;
use session::{Answer, Phase, Session, Stepped};
use turn::{moved, untouched};
use verdict::{Opening, QdlBackend};

// A session, opened with a mode, a command or none, and a backend.
pub fn open(mode: SaharaMode, command: Option<SaharaCmdModeCmd>, backend: QdlBackend) -> Session
    ensures { result ≡ opened_with (opening mode command backend) }
{
    Session {
        opening: Opening {
            mode,
            command,
            backend,
        },
        reads: 0,
        width: Width::Bits64,
        window: [0u8; 48],
        phase: Phase::Packet(0),
    }
}

// A step with the image set and the names judged well formed, for a session as if it were in the phase p. The buffers are lent one by one, and not in one
// struct: each phase is lent those that it reads or writes, so that no other can change.
pub fn phase_step(
    s: Session,
    p: Phase,
    delivery: &[u8],
    set: &[u8],
    names: &[u8],
    table: &mut [u8],
    reply: &mut [u8],
    out: &mut [u8],
) -> Stepped
    ensures { Tells outcome_told (outcome result table.new reply.new out.new)
        (phase_step s delivery.now set.now names.now table.old reply.old out.old p) }
{
    match p {
        Phase::Packet(held) => packet_step(s, held, delivery, set, table, reply, out),
        Phase::Response(x) => response_step(s, x, delivery, table, reply, out),
        Phase::Switched(k) => switched_step(s, k, table, reply, out),
        Phase::Table(x) => table_step(s, x, delivery, table, reply, out),
        Phase::Between(k, i) => between_step(s, k, i, names, table, reply, out),
        Phase::Region(k, x) => region_step(s, k, x, delivery, table, reply, out),
        Phase::Ended(_) => {
            if out.len() < 48 {
                return untouched(s, Refusal::OutBuffer);
            }
            untouched(s, Refusal::Ended)
        }
    }
}

// One step: a delivery, the image set and the names, and the table, reply and out buffers.
#[tactic(auto, using(session::proofs::Parts::step_phase), unfolding(session::specs::Step::step_of))]
pub fn step(
    s: Session,
    delivery: &[u8],
    set: &[u8],
    names: &[u8],
    table: &mut [u8],
    reply: &mut [u8],
    out: &mut [u8],
) -> Stepped
    ensures { Tells outcome_told (outcome result table.new reply.new out.new)
        (step_of s delivery.now set.now names.now table.old reply.old out.old) }
{
    if let Err(why) = check_images(set) {
        return untouched(s, why);
    }
    if let Err(why) = check_names(names) {
        return untouched(s, why);
    }
    phase_step(s, s.phase, delivery, set, names, table, reply, out)
}

// The channel was closed.
pub fn closed(s: Session) -> Stepped
    ensures { Tells stepped_told result (closed_of s) }
{
    if let Phase::Ended(_) = s.phase {
        return untouched(s, Refusal::Ended);
    }
    moved(s, Phase::Ended(0), 0, Answer::Refused(Refusal::Closed))
}
