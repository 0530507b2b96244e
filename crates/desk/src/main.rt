// Reads standard input as deliveries of 4,096 bytes, each used up before the next is read, and prints a line a step: bytes taken, answer, number.
#![tactic(auto)]

ghost use Rattle.std.specs.Prelude.{◌≤◌, length, IfOk};

use command::SaharaMode;
use feed::Feed;
use session::{Answer, Session, Stepped};
use std::io;
use std::io::Read;
use verdict::QdlBackend;

// Prints a step; true where the session goes on.
fn told(rt: &impl Print, taken: usize, a: Answer) -> io::Result<bool> {
    let (word, more) = match a {
        Answer::Go => ("go", true),
        Answer::Send(_) => ("send", true),
        Answer::Image(_, _) => ("image", true),
        Answer::Open(_) => ("open", true),
        Answer::Bytes(_) => ("bytes", true),
        Answer::EmptyRead => ("empty read", true),
        Answer::Close(_) => ("close", true),
        Answer::Finished(_, _) => ("finished", false),
        Answer::Refused(_) => ("refused", false),
    };
    let number = answers::first_value(a);
    println!(rt; "{taken} {word} {number}")?;
    Ok(more)
}

// What a step writes to. Arrays: a program without a heap cannot be out of one.
#[derive(Drop)]
struct Buffers {
    table: [u8; 65536],
    reply: [u8; 4096],
    out: [u8; 48],
}

impl Buffers {
    fn new() -> Buffers {
        Buffers {
            table: [0; 65536],
            reply: [0; 4096],
            out: [0; 48],
        }
    }
}

// Reads until the buffer is full or the input ends: how many bytes it put at the front. Each read is lent all the room that is left: of an input that keeps
// messages apart, one that is longer than the room of its read loses its rest, and the library's `read_to_end` begins with little room.
fn read_full<R: Read>(from: &mut R, buf: &mut [u8]) -> io::Result<usize>
    ensures { IfOk result (λ n. n ≤ length buf.new) }
{
    let mut done = 0;
    while done < buf.len() {
        let n = from.read(&mut buf[done..])?;
        if n == 0 {
            break;
        }
        done += n;
    }
    Ok(done)
}

// The next delivery, where this one is used up.
fn refill<R: Read>(input: &mut R, delivery: &mut [u8], f: Feed) -> io::Result<Feed>
    requires { (f.from ≤ f.to) × (f.to ≤ length delivery.old) }
    ensures { IfOk result (λ r. (r.from ≤ r.to) × (r.to ≤ length delivery.new)) }
{
    if !f.is_due() {
        return Ok(f);
    }
    let n = read_full(input, delivery)?;
    Ok(Feed::delivered(0, n))
}

// The step, unless the input is over and it would wait: then the channel is closed.
fn step_or_close(s: Session, f: Feed, left: &[u8], buffers: &mut Buffers) -> Stepped {
    if f.closes(s) {
        return host::closed(s);
    }
    let none = b"\0\0\0\0\0\0\0\0";
    let Buffers { table, reply, out } = buffers;
    host::step(s, left, none, none, table, reply, out)
}

fn run<R: Read>(
    rt: &impl Print,
    input: &mut R,
    delivery: &mut [u8],
    buffers: &mut Buffers,
) -> io::Result<()> {
    let mut s = host::open(SaharaMode::WaitingForImage, None, QdlBackend::Serial);
    let mut f = Feed::begin();
    for _ in 0..u64::MAX {
        let fed = refill(input, delivery, f)?;
        let r = step_or_close(s, fed, &delivery[fed.from..fed.to], buffers);
        if !told(rt, r.taken, r.answer)? {
            return Ok(());
        }
        f = fed.left_after(r.taken);
        s = r.session;
    }
    Ok(())
}

fn main(rt: HostRuntime) -> io::Result<()> {
    run(&rt, &mut rt.stdin(), &mut [0; 4096], &mut Buffers::new())
}
