// A run of bytes copied into a lent buffer.
#![tactic(auto)]

ghost use Rattle.std.specs.Prelude.{◌≡◌};
ghost use Rattle.copy.specs.Copy.{copied};

// The first n bytes of s from a place on. Nothing changes where they do not fit or are not there.
#[tactic(auto, using(std::proofs::lemmas::List::Edits::paste_more), unfolding(crate::specs::Copy::copied))]
pub fn copy_into(d: &mut [u8], at: usize, s: &[u8], n: usize)
    ensures { d.new ≡ copied d.old at s.now n }
{
    if d.len() < n {
        return;
    }
    if d.len() - n < at {
        return;
    }
    if s.len() < n {
        return;
    }
    // The library's copy calls memmove: the archive needs nothing but memcpy (README).
    for j in 0..n {
        d[at + j] = s[j];
    }
}
