// The session: what a host keeps from step to step, and what a step answers.
#![tactic(auto)]

ghost use Rattle.std.specs.Prelude.{◌≡◌};

use field::Width;
use refusal::Refusal;
use verdict::{Finish, Opening};

// A buffer that is being filled: its declared length, and how much is there.
#[derive(Clone, Copy)]
pub struct Filling {
    pub declared: usize,
    pub filled: usize,
}

// A region that is being dumped: its place in the table, base and length, bytes handed out, bytes requested and not yet handed out,
// and whether an empty read is due.
#[derive(Clone, Copy)]
pub struct Region {
    pub entry: usize,
    pub base: u64,
    pub len: u64,
    pub done: u64,
    pub outstanding: u64,
    pub due: bool,
}

// Each phase holds its own counts.
#[derive(Clone, Copy)]
pub enum Phase {
    // the bytes of a packet that are held
    Packet(usize),
    Response(Filling),
    // a whole response of this length is there, and SwitchMode is sent
    Switched(usize),
    Table(Filling),
    // the table's length, and the entry to go on from
    Between(usize, usize),
    // the table's length, and the region
    Region(usize, Region),
    // the length of the response that came, else 0
    Ended(usize),
}

#[derive(Clone, Copy)]
pub struct Session {
    pub opening: Opening,
    pub reads: u64,
    // of the memory debug that came; 64 bits before
    pub width: Width,
    // the first bytes of the packet that is held: no packet that is decoded needs more (how many are held stands in the phase: fixed memory, and C has it so)
    pub window: [u8; 48],
    pub phase: Phase,
}

// What a step answers, in the order of the requirement's list, which C has as numbers: refused is one of them, beside the session and the bytes taken, and so
// no `Err`.
#[derive(Clone, Copy)]
pub enum Answer {
    Go,
    Send(usize),
    Image(usize, usize),
    Open(usize),
    Bytes(usize),
    EmptyRead,
    Close(usize),
    Finished(Finish, u64),
    Refused(Refusal),
}

#[derive(Clone, Copy)]
pub struct Stepped {
    pub session: Session,
    pub taken: usize,
    pub answer: Answer,
}

// What a step of a region counts: the region and the memory reads afterwards, the bytes taken, and the answer.
#[derive(Clone, Copy)]
pub struct Counted {
    pub region: Region,
    pub reads: u64,
    pub taken: usize,
    pub answer: Answer,
}
