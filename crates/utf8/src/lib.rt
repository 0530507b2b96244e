// UTF-8 after Unicode's table 3-7.
#![tactic(auto)]

ghost use Rattle.std.specs.Prelude.{◌≡◌};
ghost use Rattle.utf8.specs.Utf8.{utf8};
ghost use Rattle.utf8.specs.Classes.{Rule};

use utf8_sequence::{Follow, behind};

// The class of each lead byte: the number of its row in table 3-7, 1 to 9, and 0 where the byte leads nothing. The line is the byte's first hexadecimal
// digit, the place in it the second.
const CLASSES: [u8; 256] = *b"\
    1111111111111111\
    1111111111111111\
    1111111111111111\
    1111111111111111\
    1111111111111111\
    1111111111111111\
    1111111111111111\
    1111111111111111\
    0000000000000000\
    0000000000000000\
    0000000000000000\
    0000000000000000\
    0022222222222222\
    2222222222222222\
    3444444444444566\
    7888900000000000";

// The rows of table 3-7: how many bytes follow the lead byte, and the least and the greatest second byte.
const ROWS: [Follow; 9] = [
    Follow(0, 0x00, 0x00), // 1: 00..7F
    Follow(1, 0x80, 0xBF), // 2: C2..DF
    Follow(2, 0xA0, 0xBF), // 3: E0
    Follow(2, 0x80, 0xBF), // 4: E1..EC
    Follow(2, 0x80, 0x9F), // 5: ED
    Follow(2, 0x80, 0xBF), // 6: EE..EF
    Follow(3, 0x90, 0xBF), // 7: F0
    Follow(3, 0x80, 0xBF), // 8: F1..F3
    Follow(3, 0x80, 0x8F), // 9: F4
];

// Whether the bytes are UTF-8, one sequence after the other, by the class of each lead byte. The constants are lent, since the compiler writes an array to
// the stack wherever it is named.
#[tactic(auto, using(crate::proofs::Laws::by_class), unfolding(crate::specs::Utf8::goes_on))]
fn sequences(classes: &[u8; 256], rows: [Follow; 9], s: &[u8]) -> bool
    requires { Rule classes.now rows }
    ensures { result ≡ utf8 s.now }
{
    let mut rest = s;
    while let Some(lead) = rest.first() {
        let class = classes[*lead as usize];
        if class == b'0' {
            return false;
        }
        let end = behind(rows[class as usize - b'1' as usize], rest, 1);
        if end == 0 {
            return false;
        }
        rest = &rest[end..];
    }
    true
}

// Whether the bytes are UTF-8.
pub fn valid(s: &[u8]) -> bool
    ensures { result ≡ utf8 s.now }
{
    sequences(&CLASSES, ROWS, s)
}
