// A session, and what a step gives, as plain numbers: what crosses to C and Rust.
#![tactic(auto)]

ghost use Rattle.std.specs.Prelude.{◌≡◌};
ghost use Rattle.raw.specs.Raw.{
  exec_number,
  opening_of,
  is_exec,
  is_opening,
  counts,
  counts_of,
  filling_in,
  region_in,
  phase_of,
  no_region,
  no_place,
  is_phase,
  width_of,
  raw_of,
  session_of,
  is_session,
  opened_raw,
  told_of,
  stepped_at,
  raw_stepped,
  refused_raw,
};

use answers::{answer_number, first_value, second_value};
use command::{SaharaCmdModeCmd, SaharaMode};
use field::Width;
use refusal::Refusal;
use session::{Answer, Filling, Phase, Region, Session, Stepped};
use verdict::{Opening, QdlBackend};

// Numbers that the phase does not use are 0. The width is 32 or 64.
#[repr(C)]
#[derive(Clone, Copy)]
pub struct RawSession {
    pub mode: u32,
    pub command: u32,
    pub backend: u32,
    pub phase: u32,
    pub reads: u64,
    pub count: usize,
    pub at: usize,
    pub base: u64,
    pub len: u64,
    pub done: u64,
    pub outstanding: u64,
    pub due: u64,
    pub width: u64,
    pub window: [u8; 48],
}

#[repr(C)]
#[derive(Clone, Copy)]
pub struct RawStepped {
    pub session: RawSession,
    pub taken: usize,
    pub first: u64,
    pub second: u64,
    pub answer: u32,
}

// What is told of a step beside the session. In this order no two numbers that the structs above and below hold side by side are side by side here: they
// would be copied as one, which stalls the processor just after they were stored as two.
#[derive(Clone, Copy)]
pub struct RawTold {
    pub first: u64,
    pub answer: u32,
    pub taken: usize,
    pub second: u64,
}

// What a step in place gives: what is told, and in a region the bytes that the next step waits for.
#[repr(C)]
#[derive(Clone, Copy)]
pub struct RawPlaced {
    pub taken: usize,
    pub first: u64,
    pub second: u64,
    pub answer: u32,
    pub waits: u64,
}

// The numbers of a phase.
#[derive(Clone, Copy, Default)]
pub struct Counts {
    pub phase: u32,
    pub count: usize,
    pub at: usize,
    pub base: u64,
    pub len: u64,
    pub done: u64,
    pub outstanding: u64,
    pub due: u64,
}

// ---- what a session is opened with. Numbers are read in two functions, whether they are good and what they name, and not by one `try_from`: a step judges
// the image set and the names between them (the definitions of the C interface are total).

// The number of no command.
const NO_COMMAND: u32 = 0xFFFFFFFF;

pub fn exec_number(command: Option<SaharaCmdModeCmd>) -> u32
    ensures { result ≡ exec_number command }
{
    match command {
        Some(c) => u32::from(c),
        None => NO_COMMAND,
    }
}

// The opening that the numbers name.
pub fn opening_of(mode: u32, command: u32, backend: u32) -> Opening
    ensures { result ≡ opening_of mode command backend }
{
    Opening {
        mode: SaharaMode::try_from(mode).unwrap_or(SaharaMode::WaitingForImage),
        command: SaharaCmdModeCmd::try_from(command).ok(),
        backend: QdlBackend::try_from(backend).unwrap_or(QdlBackend::Serial),
    }
}

// Whether the numbers name an opening.
pub fn is_opening(mode: u32, command: u32, backend: u32) -> bool
    ensures { result ≡ is_opening mode command backend }
{
    SaharaMode::try_from(mode).is_ok()
        && (SaharaCmdModeCmd::try_from(command).is_ok() || command == NO_COMMAND)
        && QdlBackend::try_from(backend).is_ok()
}

// A session just opened, where the numbers name an opening; else what is no session.
#[tactic(auto, using(crate::proofs::Laws::opened_bare))]
pub fn opened(mode: u32, command: u32, backend: u32) -> RawSession
    ensures { result ≡ opened_raw mode command backend }
{
    RawSession {
        mode,
        command,
        backend,
        phase: 0,
        reads: 0,
        count: 0,
        at: 0,
        base: 0,
        len: 0,
        done: 0,
        outstanding: 0,
        due: 0,
        width: 64,
        window: [0; 48],
    }
}

// ---- the phase

// A phase with one number, and with two.
fn counted(phase: u32, count: usize, at: usize) -> Counts
    ensures { result ≡ counts phase count at }
{
    Counts {
        phase,
        count,
        at,
        ..Counts::default()
    }
}

impl From<Phase> for Counts {
    ghost from_gives = { λ p k. k ≡ counts_of p };

    fn from(p: Phase) -> Counts {
        match p {
            Phase::Packet(held) => counted(0, held, 0),
            Phase::Response(x) => counted(1, x.declared, x.filled),
            Phase::Switched(k) => counted(2, k, 0),
            Phase::Table(x) => counted(3, x.declared, x.filled),
            Phase::Between(k, i) => counted(4, k, i),
            Phase::Region(k, x) => Counts {
                phase: 5,
                count: k,
                at: x.entry,
                base: x.base,
                len: x.len,
                done: x.done,
                outstanding: x.outstanding,
                due: u64::from(x.due),
            },
            Phase::Ended(k) => counted(6, k, 0),
        }
    }
}

fn region_of(r: RawSession) -> Region
    ensures { result ≡ region_in r }
{
    Region {
        entry: r.at,
        base: r.base,
        len: r.len,
        done: r.done,
        outstanding: r.outstanding,
        due: r.due == 1,
    }
}

fn filling_of(r: RawSession) -> Filling
    ensures { result ≡ filling_in r }
{
    Filling {
        declared: r.count,
        filled: r.at,
    }
}

#[tactic(auto, unfolding(crate::specs::Raw::phase_of))]
pub fn phase_of(r: RawSession) -> Phase
    ensures { result ≡ phase_of r }
{
    match r.phase {
        0 => Phase::Packet(r.count),
        1 => Phase::Response(filling_of(r)),
        2 => Phase::Switched(r.count),
        3 => Phase::Table(filling_of(r)),
        4 => Phase::Between(r.count, r.at),
        5 => Phase::Region(r.count, region_of(r)),
        _ => Phase::Ended(r.count),
    }
}

// The numbers that only a region has are 0.
fn no_region(r: RawSession) -> bool
    ensures { result ≡ no_region r }
{
    r.base == 0 && r.len == 0 && r.done == 0 && r.outstanding == 0 && r.due == 0
}

// The place is 0 too.
fn no_place(r: RawSession) -> bool
    ensures { result ≡ no_place r }
{
    r.at == 0 && no_region(r)
}

#[tactic(auto, unfolding(crate::specs::Raw::is_phase))]
fn is_phase(r: RawSession) -> bool
    ensures { result ≡ is_phase r }
{
    match r.phase {
        0 | 2 | 6 => no_place(r),
        1 | 3 | 4 => no_region(r),
        5 => r.due < 2,
        _ => false,
    }
}

// ---- the session

// The width that a number is read as: 64 bits where it names none.
#[tactic(auto, using(crate::proofs::Laws::width_read))]
pub fn width_of(n: u64) -> Width
    ensures { result ≡ width_of n }
{
    Width::try_from(n).unwrap_or(Width::Bits64)
}

// Whether the numbers are a session's.
#[tactic(auto, unfolding(crate::specs::Raw::is_session))]
pub fn is_session(r: RawSession) -> bool
    ensures { result ≡ is_session r }
{
    is_opening(r.mode, r.command, r.backend) && Width::try_from(r.width).is_ok() && is_phase(r)
}

#[tactic(auto, unfolding(crate::specs::Raw::session_of))]
pub fn session_of(r: RawSession) -> Session
    ensures { result ≡ session_of r }
{
    let window = r.window;
    Session {
        opening: opening_of(r.mode, r.command, r.backend),
        reads: r.reads,
        width: width_of(r.width),
        window,
        phase: phase_of(r),
    }
}

impl From<Session> for RawSession {
    ghost from_gives = { λ s r. r ≡ raw_of s };

    #[tactic(auto, unfolding(crate::specs::Raw::raw_of))]
    fn from(s: Session) -> RawSession {
        let window = s.window;
        let k = Counts::from(s.phase);
        RawSession {
            mode: u32::from(s.opening.mode),
            command: exec_number(s.opening.command),
            backend: u32::from(s.opening.backend),
            phase: k.phase,
            reads: s.reads,
            count: k.count,
            at: k.at,
            base: k.base,
            len: k.len,
            done: k.done,
            outstanding: k.outstanding,
            due: k.due,
            width: u64::from(s.width),
            window,
        }
    }
}

// What is told beside the session: bytes taken, the answer's number and its values.
pub fn told(taken: usize, answer: Answer) -> RawTold
    ensures { result ≡ told_of taken answer }
{
    RawTold {
        taken,
        first: first_value(answer),
        second: second_value(answer),
        answer: answer_number(answer),
    }
}

// A session's numbers, and what is told.
pub fn stepped_at(session: RawSession, t: RawTold) -> RawStepped
    ensures { result ≡ stepped_at session t }
{
    RawStepped {
        session,
        taken: t.taken,
        first: t.first,
        second: t.second,
        answer: t.answer,
    }
}

// What a step gives, as numbers.
impl From<Stepped> for RawStepped {
    ghost from_gives = { λ s r. r ≡ raw_stepped s };

    #[tactic(auto, unfolding(crate::specs::Raw::raw_stepped))]
    fn from(s: Stepped) -> RawStepped {
        stepped_at(RawSession::from(s.session), told(s.taken, s.answer))
    }
}

// Refused, the numbers as they were.
pub fn refused(r: RawSession, why: Refusal) -> RawStepped
    ensures { result ≡ refused_raw r why }
{
    stepped_at(r, told(0, Answer::Refused(why)))
}
