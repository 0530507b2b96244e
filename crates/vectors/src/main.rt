// Runs the leaf operations on cases from standard input, a line each, and writes what each gives. A case is a letter and words:
// bytes in hexadecimal (`-` for none) and numbers in hexadecimal. A line that starts with `#` is written again.
#![tactic(auto)]

ghost use Rattle.std.specs.Prelude.{◌≤◌, length, IfOk};

mod bundles;
mod forecasts;
mod packets;
mod regions;
mod show;
mod text;

use std::io;
use std::io::{Read, Write};
use text::Line;

// The operation of a letter: one `match`, since letters are data.
fn lettered<W: Write>(to: &mut W, letter: u8, line: Line<'_>) -> io::Result<()> {
    match letter {
        b'd' => packets::decode(to, line),
        b'l' => packets::length(to, line),
        b'b' => packets::build_case(to, line),
        b's' => bundles::images(to, line),
        b'n' => bundles::names(to, line),
        b'i' => bundles::range(to, line),
        b'z' => bundles::tidy_case(to, line),
        b'u' => regions::utf8_valid(to, line),
        b't' => regions::stem(to, line),
        b'o' => regions::opening(to, line),
        b'p' => regions::opened(to, line),
        b'e' => regions::decode_entry(to, line),
        b'x' => regions::selected(to, line),
        b'y' => regions::next(to, line),
        b'r' => regions::sheet(to, line),
        b'f' => forecasts::of_table(to, line),
        b'g' => forecasts::of_list(to, line),
        b'#' => to.write_all(line.text),
        _ => show::nothing(to),
    }
}

fn case<W: Write>(to: &mut W, line: Line<'_>) -> io::Result<()> {
    if let Some(letter) = line.text.first() {
        lettered(to, *letter, line)?;
    }
    writeln!(to)
}

// Reads until the buffer is full or the input ends: how many bytes it put at the front. Each read is lent all the room that is left: of an input that keeps
// messages apart, one that is longer than the room of its read loses its rest, and the library's `read_to_end` begins with little room.
fn read_full<R: Read>(from: &mut R, buf: &mut [u8]) -> io::Result<usize>
    ensures { IfOk result (λ n. n ≤ length buf.new) }
{
    let mut done = 0;
    while done < buf.len() {
        let n = from.read(&mut buf[done..])?;
        if n == 0 {
            break;
        }
        done += n;
    }
    Ok(done)
}

// The cases of the input, of which as much is read as the room takes.
fn cases<R: Read, W: Write>(from: &mut R, to: &mut W, room: &mut [u8]) -> io::Result<()> {
    let n = read_full(from, room)?;
    for line in room[..n].split_inclusive(|b| *b == b'\n') {
        let text = line.strip_suffix(b"\n").unwrap_or(line);
        case(to, Line { text })?;
    }
    to.flush()
}

// Room for the input. In a function of its own: the prover would count the zeros where they are lent.
fn room() -> [u8; 524288] {
    [0; 524288]
}

fn main(rt: HostRuntime) -> io::Result<()> {
    let mut room = room();
    cases(&mut rt.stdin(), &mut rt.stdout(), &mut room)
}

#[cfg(test)]
mod tests {
    use field::Number;

    // No case calls these: a byte that is not there is read as 0, and one that does not lie within is not stored.
    #[test]
    fn numbers_at_places(rt: HostRuntime) {
        let s = [0xFF, 0x04, 0x03, 0x02, 0x01, 0, 0, 0, 0x80, 0xEE];
        assert_eq!(rt; u32::load(&s, 1), 0x01020304);
        assert_eq!(rt; u64::load(&s, 1), 0x8000000001020304);
        assert_eq!(rt; u32::load(&s, 8), 0xEE80);
        assert_eq!(rt; u64::load(&s, 10), 0);
        assert_eq!(rt; u32::load(&s, usize::MAX), 0);
        let mut d = [0xAA; 10];
        0x01020304u32.store(&mut d, 1);
        assert_eq!(rt; d, [0xAA, 4, 3, 2, 1, 0xAA, 0xAA, 0xAA, 0xAA, 0xAA]);
        0x0102030405060708u64.store(&mut d, 2);
        assert_eq!(rt; d, [0xAA, 4, 8, 7, 6, 5, 4, 3, 2, 1]);
        0x01020304u32.store(&mut d, 8);
        assert_eq!(rt; d, [0xAA, 4, 8, 7, 6, 5, 4, 3, 4, 3]);
        0x01020304u32.store(&mut d, 10);
        0x01020304u32.store(&mut d, usize::MAX);
        assert_eq!(rt; d, [0xAA, 4, 8, 7, 6, 5, 4, 3, 4, 3]);
    }
}
