// Replays conversations from standard input and prints a line a step: bytes taken, answer, number, and what else the answer tells.
// A conversation is twelve words (mode, command or 4, backend, delivery size, sizes of the out, table and reply buffers, lengths of the session, of what the
// table and reply buffers begin with, of the image set, the names and the device's bytes) and these five. A session of no bytes is one as opened. Else
// the buffers hold zeros behind what they begin with, and a last line tells the session; of fewer than 80 bytes it is as opened too, of others made up:
// ten numbers of 8 bytes (phase, width, memory reads; count, at, base, len, done, outstanding, due, as they cross to C) and the window.
#![tactic(auto)]

ghost use Rattle.std.specs.Prelude.{◌^◌, ◌<◌, ◌≤◌, length, IfOk};

use feed::Feed;
use field::padded;
use raw::RawSession;
use session::{Answer, Phase, Session, Stepped};
use std::io;
use std::io::{Read, Write};
use verdict::Finish;

// The parts of a conversation, which lie one behind the other.
#[derive(Clone, Copy)]
struct Parts<'a> {
    session: &'a [u8],
    lent: &'a [u8],
    set: &'a [u8],
    names: &'a [u8],
    feed: &'a [u8],
}

// What steps write to, as much as a case may ask for. They are made once, and a case that is as opened leaves them as they are. Arrays: a program without
// a heap cannot be out of one.
#[derive(Drop)]
struct Buffers {
    table: [u8; 65536],
    reply: [u8; 8192],
    out: [u8; 64],
}

impl Buffers {
    fn new() -> Buffers {
        Buffers {
            table: [0; 65536],
            reply: [0; 8192],
            out: [0; 64],
        }
    }
}

// How much of each a case lends.
#[derive(Clone, Copy)]
struct Sizes {
    table: usize,
    reply: usize,
    out: usize,
}

fn count(words: &[u8], at: usize) -> usize
    ensures { result < 2 ^ 32 }
{
    padded::<u32>(words, at) as usize
}

// The length of all parts, at most 131,072.
fn parts_len(words: &[u8]) -> usize {
    let len = count(words, 28)
        + count(words, 32)
        + count(words, 36)
        + count(words, 40)
        + count(words, 44);
    len.min(131072)
}

// The first bytes, at most so many, and those behind them.
fn cut(s: &[u8], most: usize) -> (&[u8], &[u8]) {
    s.split_at(most.min(s.len()))
}

// The parts that these bytes are; where they are fewer than the words say, the later parts are the shorter.
fn parts_of<'a>(words: &[u8], bytes: &'a [u8]) -> Parts<'a> {
    let (session, rest) = cut(bytes, count(words, 28));
    let (lent, rest) = cut(rest, count(words, 32));
    let (set, rest) = cut(rest, count(words, 36));
    let (names, feed) = cut(rest, count(words, 40));
    Parts {
        session,
        lent,
        set,
        names,
        feed,
    }
}

// The sizes that the words ask for.
fn sizes_of(words: &[u8]) -> Sizes {
    Sizes {
        table: count(words, 20),
        reply: count(words, 24),
        out: count(words, 16),
    }
}

// The first bytes of a buffer, at most so many.
fn front(buffer: &mut [u8], most: usize) -> &mut [u8] {
    let n = most.min(buffer.len());
    &mut buffer[..n]
}

// What is lent, and zeros behind it.
fn fill(buffer: &mut [u8], lent: &[u8]) {
    let n = lent.len().min(buffer.len());
    buffer[..n].copy_from_slice(&lent[..n]);
    buffer[n..].fill(0);
}

// The session that the words open; every backend but 0 is USB.
fn opened_by(words: &[u8]) -> Session {
    let opening = raw::opening_of(
        padded(words, 0),
        padded(words, 4),
        padded::<u32>(words, 8).min(1),
    );
    host::open(opening.mode, opening.command, opening.backend)
}

// The first 48 bytes, with zeros behind fewer.
fn window_of(s: &[u8]) -> [u8; 48] {
    let mut window = [0; 48];
    for (place, b) in window.iter_mut().zip(s) {
        *place = *b;
    }
    window
}

// A made-up session, opened like this one. Every phase from 6 on is the end.
fn session_of(opened: Session, s: &[u8]) -> Session {
    if s.len() < 80 {
        return opened;
    }
    raw::session_of(RawSession {
        phase: padded::<u64>(s, 0).min(6) as u32,
        width: padded(s, 8),
        reads: padded(s, 16),
        count: padded::<u64>(s, 24) as usize,
        at: padded::<u64>(s, 32) as usize,
        base: padded(s, 40),
        len: padded(s, 48),
        done: padded(s, 56),
        outstanding: padded(s, 64),
        due: padded::<u64>(s, 72).min(1),
        window: window_of(&s[80..]),
        ..RawSession::from(opened)
    })
}

const DIGITS: &[u8; 16] = b"0123456789abcdef";

// The first bytes, at most so many, in hexadecimal behind a space, and the line's end; no space for none. A byte's digits are written together, and not by
// `{:02x}`, which writes a 0 by itself: each piece is a call of the system.
fn first<W: Write>(to: &mut W, s: &[u8], most: usize) -> io::Result<()> {
    let (front, _) = cut(s, most);
    if !front.is_empty() {
        to.write_all(b" ")?;
    }
    for b in front {
        to.write_all(&[DIGITS[(*b / 16) as usize], DIGITS[(*b % 16) as usize]])?;
    }
    to.write_all(b"\n")
}

// The line of a step.
fn told<W: Write>(to: &mut W, taken: usize, a: Answer, set: &[u8], out: &[u8]) -> io::Result<()> {
    match a {
        Answer::Go => writeln!(to, "{taken} go 0"),
        Answer::Send(k) => {
            write!(to, "{taken} send {k}")?;
            first(to, out, k)
        }
        Answer::Image(start, k) => {
            write!(to, "{taken} image {k} {start}")?;
            first(to, set.get(start..).unwrap_or(b""), k)
        }
        Answer::Open(i) => writeln!(to, "{taken} open {i}"),
        Answer::Bytes(k) => writeln!(to, "{taken} bytes {k}"),
        Answer::EmptyRead => writeln!(to, "{taken} empty read 0"),
        Answer::Close(i) => writeln!(to, "{taken} close {i}"),
        Answer::Finished(how, reads) => writeln!(to, "{taken} finished {} {reads}", u8::from(how)),
        Answer::Refused(why) => writeln!(to, "{taken} refused {}", u8::from(why)),
    }
}

// The session goes on after this answer.
fn goes_on(a: Answer) -> bool {
    !matches!(a, Answer::Finished(_, _) | Answer::Refused(_))
}

// The reply of a session that finished (4).
fn replied<W: Write>(to: &mut W, a: Answer, p: Phase, reply: &[u8]) -> io::Result<()> {
    match (a, p) {
        (Answer::Finished(Finish::Reply, _), Phase::Ended(0)) => writeln!(to, "reply -"),
        (Answer::Finished(Finish::Reply, _), Phase::Ended(k)) => {
            write!(to, "reply")?;
            first(to, reply, k)
        }
        _ => Ok(()),
    }
}

// A session as numbers; those that its phase does not use are 0.
fn told_session<W: Write>(to: &mut W, s: Session) -> io::Result<()> {
    let r = RawSession::from(s);
    write!(
        to,
        "session {} {} {} {} {}",
        r.phase, r.width, r.reads, r.count, r.at
    )?;
    writeln!(
        to,
        " {} {} {} {} {}",
        r.base, r.len, r.done, r.outstanding, r.due
    )
}

// The next delivery, where this one is used up.
fn refill(f: Feed, size: usize, end: usize) -> Feed
    requires { (f.from ≤ f.to) × (f.to ≤ end) }
    ensures { (result.from ≤ result.to) × (result.to ≤ end) }
{
    if !f.is_due() {
        return f;
    }
    Feed::delivered(f.to, size.min(end - f.to))
}

// The step, unless the device's bytes are over and it would wait: then the channel is closed.
fn step_or_close(
    s: Session,
    f: Feed,
    left: &[u8],
    parts: Parts<'_>,
    buffers: &mut Buffers,
    sizes: Sizes,
) -> Stepped {
    if f.closes(s) {
        return host::closed(s);
    }
    host::step(
        s,
        left,
        parts.set,
        parts.names,
        front(&mut buffers.table, sizes.table),
        front(&mut buffers.reply, sizes.reply),
        front(&mut buffers.out, sizes.out),
    )
}

// One conversation: deliveries of at most `size` of the device's bytes. The session at its end.
fn run<W: Write>(
    to: &mut W,
    first: Session,
    size: usize,
    parts: Parts<'_>,
    buffers: &mut Buffers,
    sizes: Sizes,
) -> io::Result<Session> {
    let mut s = first;
    let mut f = Feed::begin();
    for _ in 0..1000000000 {
        let fed = refill(f, size, parts.feed.len());
        let left = &parts.feed[fed.from..fed.to];
        let r = step_or_close(s, fed, left, parts, buffers, sizes);
        s = r.session;
        told(to, r.taken, r.answer, parts.set, &buffers.out)?;
        replied(to, r.answer, s.phase, &buffers.reply)?;
        if !goes_on(r.answer) {
            return Ok(s);
        }
        f = fed.left_after(r.taken);
    }
    Ok(s)
}

// One conversation. The session is told at its end where the case has one.
fn replay<W: Write>(
    to: &mut W,
    words: &[u8],
    parts: Parts<'_>,
    buffers: &mut Buffers,
) -> io::Result<()> {
    let opened = opened_by(words);
    let size = count(words, 12);
    let sizes = sizes_of(words);
    if parts.session.is_empty() {
        run(to, opened, size, parts, buffers, sizes)?;
        return Ok(());
    }
    fill(front(&mut buffers.table, sizes.table), parts.lent);
    fill(front(&mut buffers.reply, sizes.reply), parts.lent);
    let first = session_of(opened, parts.session);
    let last = run(to, first, size, parts, buffers, sizes)?;
    told_session(to, last)
}

// Reads until the buffer is full or the input ends: how many bytes it put at the front. Each read is lent all the room that is left: of an input that keeps
// messages apart, one that is longer than the room of its read loses its rest, and the library's `read_to_end` begins with little room.
fn read_full<R: Read>(from: &mut R, buf: &mut [u8]) -> io::Result<usize>
    ensures { IfOk result (λ n. n ≤ length buf.new) }
{
    let mut done = 0;
    while done < buf.len() {
        let n = from.read(&mut buf[done..])?;
        if n == 0 {
            break;
        }
        done += n;
    }
    Ok(done)
}

// The next case: its words are read, then its parts; an empty line between two cases. False where there is none.
fn next<R: Read, W: Write>(
    from: &mut R,
    to: &mut W,
    cases: u64,
    input: &mut [u8],
    buffers: &mut Buffers,
) -> io::Result<bool> {
    let mut words = [0; 48];
    if read_full(from, &mut words)? < words.len() {
        return Ok(false);
    }
    if 0 < cases {
        writeln!(to)?;
    }
    let bytes = front(input, parts_len(&words));
    if read_full(from, bytes)? < bytes.len() {
        return Ok(false);
    }
    replay(to, &words, parts_of(&words, bytes), buffers)?;
    to.flush()?;
    Ok(true)
}

fn all<R: Read, W: Write>(
    from: &mut R,
    to: &mut W,
    input: &mut [u8],
    buffers: &mut Buffers,
) -> io::Result<()> {
    for cases in 0..1000000000 {
        if !next(from, to, cases, input, buffers)? {
            break;
        }
    }
    to.flush()
}

fn main(rt: HostRuntime) -> io::Result<()> {
    all(
        &mut rt.stdin(),
        &mut rt.stdout(),
        &mut [0; 131072],
        &mut Buffers::new(),
    )
}
