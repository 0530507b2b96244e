// The phase in a region of a dump: chunk by chunk it is asked for and handed out, then closed.
#![tactic(auto)]

ghost use Rattle.std.specs.Prelude.{◌≡◌, true, false, List, ℕ, ◌+◌, ◌^◌, ◌<◌, ◌≤◌, length};
ghost use Rattle.field.specs.Field.{field_size};
ghost use Rattle.entry.specs.Entry.{there};
ghost use Rattle.filename.specs.Filename.{after_open_check};
ghost use Rattle.base.specs.Told.{Tells};
ghost use Rattle.session.specs.Answers.{outcome_told};
ghost use Rattle.session.specs.Outcome.{gives, outcome};
ghost use Rattle.session.specs.RegionPhase.{asked_of, asked_out, handed_of, counted_in, closes, begun_of, name_in};
ghost use Rattle.session.specs.Guard.{region_step};
ghost use Rattle.region_phase.specs.Advance.{advanced, advance_within, advance_of};

use build::sahara_send_mem_read;
use chunk::due_after;
use entry::entry_at;
use field::Width;
use filename::check_after_open;
use limits::{past_memory, reads_limit, region_limit};
use refusal::Refusal;
use region_counts::{asks_for, hands_out, past_end, recount};
use session::{Answer, Counted, Phase, Region, Session, Stepped};
use turn::{moved, untouched};
use verdict::Opening;

// What a region's step comes to by its counts, where it is not refused: bytes are outstanding and none came; other counts; the region is to be begun, its
// name judged; it is to be closed.
#[derive(Clone, Copy)]
pub enum Advance {
    Waits,
    To(Counted),
    Begins,
    Closes,
}

// ---- over the counts

// No bytes are outstanding and some are left: the next memory read. That 48 bytes are lent is asked here and twice below, and is in no type: what is ensured
// speaks of the whole out buffer, of which an array of 48 bytes is the front alone.
#[tactic(auto, using(build::proofs::Laws::build_long))]
fn ask(width: Width, opening: Opening, reads: u64, x: Region, out: &mut [u8]) -> Counted
    requires { (48 ≤ length out.old) × (x.done < x.len) × (x.base + x.len ≤ 256 ^ field_size width) × (reads ≤ 2 ^ 63 + 1) }
    ensures { (result ≡ asked_of width opening reads x) × (out.new ≡ asked_out width opening x out.old) }
{
    let n = asks_for(opening, x);
    let k = sahara_send_mem_read(out, width, x.base + x.done, n).unwrap();
    Counted {
        region: recount(x, x.done, n, false),
        reads: reads + 1,
        taken: 0,
        answer: Answer::Send(k),
    }
}

// Bytes are outstanding: of those that came, so many, what is outstanding is handed out.
fn hand_out(opening: Opening, reads: u64, x: Region, came: usize) -> Counted
    requires { x.done + x.outstanding ≤ x.len }
    ensures { result ≡ handed_of opening reads x came }
{
    let h = hands_out(x, came);
    let done = x.done + h.taken as u64;
    let due = due_after(opening, h.left, done);
    Counted {
        region: recount(x, done, h.left, due),
        reads,
        taken: h.taken,
        answer: Answer::Bytes(h.taken),
    }
}

// With every count within its limit: the empty read that is due, a chunk asked for, or one handed out.
#[tactic(auto, unfolding(crate::specs::Advance::advance_within))]
fn advance_within(
    width: Width,
    opening: Opening,
    reads: u64,
    x: Region,
    came: usize,
    out: &mut [u8],
) -> Advance
    requires { (48 ≤ length out.old) × (reads ≤ 2 ^ 63 + 1) × (x.done + x.outstanding ≤ x.len)
        × ((x.done ≡ 0 → ⊥) → x.base + x.len ≤ 256 ^ field_size width) }
    ensures { advanced (Ok result) out.new ≡ advance_within width opening reads x came out.old }
{
    if x.due {
        return Advance::To(Counted {
            region: recount(x, x.done, x.outstanding, false),
            reads,
            taken: 0,
            answer: Answer::EmptyRead,
        });
    }
    if x.outstanding == 0 {
        if x.done == 0 {
            return Advance::Begins;
        }
        if x.len <= x.done {
            return Advance::Closes;
        }
        return Advance::To(ask(width, opening, reads, x, out));
    }
    if came == 0 {
        return Advance::Waits;
    }
    Advance::To(hand_out(opening, reads, x, came))
}

// A region's step over its counts: k is the table's length, x the region, and so many bytes came.
#[tactic(auto, unfolding(crate::specs::Advance::advance_of))]
pub fn advance_region(
    width: Width,
    opening: Opening,
    reads: u64,
    k: usize,
    x: Region,
    came: usize,
    table: &[u8],
    out: &mut [u8],
) -> Result<Advance, Refusal>
    ensures { advanced result out.new ≡ advance_of width opening reads k x came table.now out.old }
{
    if out.len() < 48 {
        return Err(Refusal::OutBuffer);
    }
    if reads_limit(reads) || region_limit(width, k, x, table) {
        return Err(Refusal::Limit);
    }
    Ok(advance_within(width, opening, reads, x, came, out))
}

// ---- put into a session

fn counted_in(s: Session, k: usize, c: Counted) -> Stepped
    ensures { result ≡ counted_in s k c }
{
    Stepped {
        session: Session {
            reads: c.reads,
            phase: Phase::Region(k, c.region),
            ..s
        },
        taken: c.taken,
        answer: c.answer,
    }
}

fn waits(s: Session) -> Stepped
    ensures { result ≡ gives s 0 Answer.Go }
{
    Stepped {
        session: s,
        taken: 0,
        answer: Answer::Go,
    }
}

// The next step goes on from the next entry.
fn close(s: Session, k: usize, x: Region) -> Stepped
    requires { x.entry + 1 < 2 ^ 64 }
    ensures { result ≡ closes s k x }
{
    moved(s, Phase::Between(k, x.entry + 1), 0, Answer::Close(x.entry))
}

// The step after open, by the entry's name, then its end: 21, then 22 or 24.
#[tactic(auto, using(entry::proofs::Laws::entry_there), unfolding(session::specs::RegionPhase::next_chunk))]
fn begin_region(s: Session, k: usize, x: Region, table: &[u8], out: &mut [u8]) -> Stepped
    requires { (48 ≤ length out.old) × (there (field_size s.width) table.now x.entry ≡ true) × (s.reads ≤ 2 ^ 63 + 1) }
    ensures { (y : List ℕ) → outcome result table.now y out.new
        ≡ begun_of s k x table.now y out.old (after_open_check (name_in s.width table.now x)) }
{
    let entry = entry_at(table, s.width, x.entry).unwrap();
    if let Err(why) = check_after_open(&entry.filename) {
        return moved(s, Phase::Ended(0), 0, Answer::Refused(why));
    }
    if past_memory(s.width, x.base, x.len) {
        return moved(s, Phase::Ended(0), 0, Answer::Refused(past_end(s.width)));
    }
    if x.len <= x.done {
        return close(s, k, x);
    }
    let c = ask(s.width, s.opening, s.reads, x, out);
    counted_in(s, k, c)
}

// A step in a region: k is the table's length, x the region.
#[tactic(auto, using(crate::proofs::Laws::advance_is))]
pub fn region_step(
    s: Session,
    k: usize,
    x: Region,
    delivery: &[u8],
    table: &[u8],
    reply: &[u8],
    out: &mut [u8],
) -> Stepped
    ensures { Tells outcome_told (outcome result table.now reply.now out.new)
        (region_step s k x delivery.now table.now reply.now out.old) }
{
    let came = delivery.len();
    let a = match advance_region(s.width, s.opening, s.reads, k, x, came, table, out) {
        Ok(a) => a,
        Err(why) => return untouched(s, why),
    };
    match a {
        Advance::Waits => waits(s),
        Advance::To(c) => counted_in(s, k, c),
        Advance::Begins => begin_region(s, k, x, table, out),
        Advance::Closes => close(s, k, x),
    }
}
