// What a step gives, for every phase alike: its guard, a refusal that touches nothing, and the session in another phase.
#![tactic(auto)]

ghost use Rattle.std.specs.Prelude.{◌≡◌};
ghost use Rattle.session.specs.Outcome.{gives, in_phase};
ghost use Rattle.turn.specs.Turn.{guard_of};

use limits::reads_limit;
use refusal::Refusal;
use session::{Answer, Phase, Session, Stepped};

// 3, then 18: limited tells that a count of the phase is above its limit.
#[tactic(auto, unfolding(crate::specs::Turn::guard_of))]
pub fn guard(s: Session, limited: bool, out: &[u8]) -> Result<(), Refusal>
    ensures { result ≡ guard_of s limited out.now }
{
    if out.len() < 48 {
        return Err(Refusal::OutBuffer);
    }
    if reads_limit(s.reads) || limited {
        return Err(Refusal::Limit);
    }
    Ok(())
}

// Refused, the session as it was and nothing taken.
pub fn untouched(s: Session, why: Refusal) -> Stepped
    ensures { result ≡ gives s 0 (Answer.Refused why) }
{
    Stepped {
        session: s,
        taken: 0,
        answer: Answer::Refused(why),
    }
}

// The session in another phase.
pub fn moved(s: Session, phase: Phase, taken: usize, answer: Answer) -> Stepped
    ensures { result ≡ gives (in_phase s phase) taken answer }
{
    Stepped {
        session: Session { phase, ..s },
        taken,
        answer,
    }
}
