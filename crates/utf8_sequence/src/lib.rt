// A sequence of UTF-8: the bytes that follow its lead byte.
#![tactic(auto)]

ghost use Rattle.std.specs.Prelude.{◌≡◌, drop};
ghost use Rattle.utf8_sequence.specs.Sequence.{follows, end_of};

// What a row of Unicode's table 3-7 has behind the lead byte: how many bytes follow, and the least and the greatest second byte. Those behind the second
// are 0x80..=0xBF.
#[derive(Clone, Copy)]
pub struct Follow(pub u8, pub u8, pub u8);

// Whether a byte stands at i, and is one of low..=high.
#[tactic(auto, using(crate::proofs::Laws::none, crate::proofs::Laws::first))]
fn there(low: u8, high: u8, s: &[u8], i: usize) -> bool
    ensures { result ≡ follows 1 low high (drop i s.now) }
{
    i < s.len() && low <= s[i] && s[i] <= high
}

// Where the bytes that follow a lead byte, which are to begin at i, end; 0 where they are not there, or are to be more than three.
#[tactic(auto, using(crate::proofs::Laws::by_bytes))]
pub fn behind(f: Follow, s: &[u8], i: usize) -> usize
    ensures { result ≡ end_of f s.now i }
{
    let more = f.0;
    if more == 0 {
        return i;
    }
    if !there(f.1, f.2, s, i) {
        return 0;
    }
    if more == 1 {
        return i + 1;
    }
    if !there(0x80, 0xBF, s, i + 1) {
        return 0;
    }
    if more == 2 {
        return i + 2;
    }
    if !there(0x80, 0xBF, s, i + 2) {
        return 0;
    }
    if more == 3 {
        return i + 3;
    }
    0
}
