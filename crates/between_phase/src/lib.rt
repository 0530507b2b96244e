// The phase between the regions of a dump: the next selected entry is opened, or the dump is over.
#![tactic(auto)]

ghost use Rattle.std.specs.Prelude.{◌≡◌, true, ◌≤◌, length};
ghost use Rattle.field.specs.Field.{field_size};
ghost use Rattle.entry.specs.Entry.{entry_of, filename_of, there};
ghost use Rattle.filename.specs.Filename.{open_check};
ghost use Rattle.base.specs.Told.{Tells};
ghost use Rattle.session.specs.Answers.{outcome_told};
ghost use Rattle.session.specs.Outcome.{outcome};
ghost use Rattle.session.specs.BetweenPhase.{open_of, between_of};
ghost use Rattle.session.specs.Guard.{between_step};

use entry::{entries_in, entry_at};
use filename::check_open;
use limits::between_limit;
use selection::next_selected;
use session::{Answer, Phase, Region, Session, Stepped};
use turn::{guard, moved, untouched};
use verdict::Finish;

// Entry i of the table is opened by its name: 19, 20.
#[tactic(auto, using(entry::proofs::Laws::entry_there))]
fn open_region(s: Session, k: usize, i: usize, table: &[u8]) -> Stepped
    requires { there (field_size s.width) table.now i ≡ true }
    ensures { result ≡ open_of (field_size s.width) s k i (entry_of (field_size s.width) table.now i)
        (open_check (filename_of (field_size s.width) (entry_of (field_size s.width) table.now i))) }
{
    let entry = entry_at(table, s.width, i).unwrap();
    if let Err(why) = check_open(&entry.filename) {
        return moved(s, Phase::Ended(0), 0, Answer::Refused(why));
    }
    let x = Region {
        entry: i,
        base: entry.base,
        len: entry.len,
        done: 0,
        outstanding: 0,
        due: false,
    };
    moved(s, Phase::Region(k, x), 0, Answer::Open(i))
}

// The next selected entry is opened, or the dump is over.
#[tactic(auto, unfolding(session::specs::BetweenPhase::between_of))]
fn next_region(s: Session, k: usize, from: usize, names: &[u8], table: &[u8]) -> Stepped
    requires { k ≤ length table.now }
    ensures { result ≡ between_of (field_size s.width) s k from names.now table.now }
{
    let entries = entries_in(s.width, k);
    let i = next_selected(table, s.width, entries, names, from);
    if entries <= i {
        return moved(
            s,
            Phase::Ended(0),
            0,
            Answer::Finished(Finish::Dumped, s.reads),
        );
    }
    open_region(s, k, i, table)
}

// A step between regions: k is the table's length, i the entry to go on from.
#[tactic(auto, unfolding(session::specs::Guard::between_step, turn::specs::Turn::guard_of))]
pub fn between_step(
    s: Session,
    k: usize,
    i: usize,
    names: &[u8],
    table: &[u8],
    reply: &[u8],
    out: &[u8],
) -> Stepped
    ensures { Tells outcome_told (outcome result table.now reply.now out.now)
        (between_step s k i names.now table.now reply.now out.now) }
{
    if let Err(why) = guard(s, between_limit(s.width, k, i, table), out) {
        return untouched(s, why);
    }
    next_region(s, k, i, names, table)
}
