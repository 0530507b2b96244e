// Filenames of table entries: the stem, and the tests of a region's name.
#![tactic(auto)]

ghost use Rattle.std.specs.Prelude.{◌≡◌, length};
ghost use Rattle.base.specs.Told.{Tells};
ghost use Rattle.filename.specs.Filename.{before, stem_of, open_check, after_open_check, name_told};

use refusal::Refusal;

// How many bytes stand before the first b, all where there is none.
pub fn find(name: &[u8], b: u8) -> usize
    ensures { result ≡ length (before b name.now) }
{
    name.iter().position(|c| *c == b).unwrap_or(name.len())
}

// How many bytes of the name are its stem.
#[tactic(auto, unfolding(crate::specs::Filename::stem_of))]
pub fn stem_len(name: &[u8]) -> usize
    ensures { result ≡ length (stem_of name.now) }
{
    if utf8::valid(name) {
        return find(name, b'.');
    }
    0
}

// What opening a region says of its name.
#[tactic(auto, using(crate::proofs::Laws::opened))]
pub fn check_open(name: &[u8]) -> Result<(), Refusal>
    ensures { Tells name_told result (open_check name.now) }
{
    let n = name.len();
    let k = find(name, 0);
    if k == n {
        return Err(Refusal::FilenameEnd);
    }
    if utf8::valid(&name[..k]) {
        return Ok(());
    }
    Err(Refusal::Filename)
}

// What the step after open says of it.
#[tactic(auto, unfolding(crate::specs::Filename::after_open_check))]
pub fn check_after_open(name: &[u8]) -> Result<(), Refusal>
    ensures { Tells name_told result (after_open_check name.now) }
{
    if utf8::valid(name) {
        return Ok(());
    }
    Err(Refusal::FilenameBytes)
}
