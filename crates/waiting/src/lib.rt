// Whether a step waits for bytes, and for how many. What a step judges is the whole packet: theorems over the definitions (proofs/Window).
#![tactic(auto)]

ghost use Rattle.std.specs.Prelude.{◌≡◌};
ghost use Rattle.waiting.specs.Wanted.{region_waits, needs_bytes, packet_wants, region_wants, wanted_of};

use limits::length_in;
use session::{Phase, Region, Session};

// Bytes are outstanding, and no empty read comes first.
fn region_waits(x: Region) -> bool
    ensures { result ≡ region_waits x }
{
    !x.due && x.outstanding != 0
}

// Whether the next step would wait. Of a session within its limits: exactly where it answers go to an empty delivery and nothing changes
// (`waits` and `waits_only` of proofs/Waiting).
pub fn needs_bytes(s: Session) -> bool
    ensures { result ≡ needs_bytes s.phase }
{
    match s.phase {
        Phase::Packet(_) => true,
        Phase::Response(x) | Phase::Table(x) => x.filled < x.declared,
        Phase::Region(_, x) => region_waits(x),
        Phase::Switched(_) | Phase::Between(_, _) | Phase::Ended(_) => false,
    }
}

// Of a packet: the header, then what its length field leaves.
fn packet_wants(window: [u8; 48], held: usize) -> usize
    ensures { result ≡ packet_wants window held }
{
    if held < 8 {
        8 - held
    } else {
        (length_in(window) as usize).saturating_sub(held)
    }
}

// Of a region: what is outstanding, where no empty read comes first.
fn region_wants(x: Region) -> usize
    ensures { result ≡ region_wants x }
{
    if x.due { 0 } else { x.outstanding as usize }
}

// How many bytes the next step asks for. Of a session within its limits: 0 exactly where it needs none, and a step lent no more takes all of it
// (`wanted_needs` and `takes_all` of proofs/Waiting).
pub fn wanted(s: Session) -> usize
    ensures { result ≡ wanted_of s }
{
    match s.phase {
        Phase::Packet(held) => packet_wants(s.window, held),
        Phase::Response(x) | Phase::Table(x) => x.declared.saturating_sub(x.filled),
        Phase::Region(_, x) => region_wants(x),
        Phase::Switched(_) | Phase::Between(_, _) | Phase::Ended(_) => 0,
    }
}
