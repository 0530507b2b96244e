// A line of words with one space between two of them: a word is bytes or a number, in hexadecimal.
ghost use Rattle.std.specs.Prelude.{◌<◌};

#[derive(Clone, Copy)]
pub(crate) struct Line<'a> {
    pub(crate) text: &'a [u8],
}

// The value of a digit 0..9, a..f; 0 of any other byte. (`to_digit(16)` takes A..F too.)
fn digit(b: u8) -> u8
    ensures { result < 16 }
{
    match b {
        b'0'..=b'9' => b - b'0',
        b'a'..=b'f' => b - b'a' + 10,
        _ => 0,
    }
}

impl<'a> Line<'a> {
    // Word k, empty where there is none.
    fn word(self, k: usize) -> &'a [u8] {
        self.text.split(|b| *b == b' ').nth(k).unwrap_or(b"")
    }

    // The bytes that word k writes, two digits a byte, put into a room, as many as it takes. `-` writes none. (A program without a heap cannot be out of one.)
    pub(crate) fn bytes<'b>(self, k: usize, room: &'b mut [u8]) -> &'b [u8] {
        let (pairs, _) = self.word(k).as_chunks::<2>();
        let n = pairs.len().min(room.len());
        for (place, [high, low]) in room.iter_mut().zip(pairs) {
            *place = 16 * digit(*high) + digit(*low);
        }
        &room[..n]
    }

    // The number of word k, its last 64 bits.
    pub(crate) fn long(self, k: usize) -> u64 {
        self.word(k).iter().fold(0, |v, b| v % 0x1000000000000000 * 16 + u64::from(digit(*b)))
    }

    pub(crate) fn number(self, k: usize) -> u32 {
        (self.long(k) % 0x100000000) as u32
    }

    pub(crate) fn index(self, k: usize) -> usize {
        self.long(k) as usize
    }
}
