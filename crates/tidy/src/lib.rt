// The tidy form of an image set, written to a lent buffer.
#![tactic(auto)]

ghost use Rattle.std.specs.Prelude.{◌≡◌, map, ◌+◌, ◌*◌, ◌≤◌, length};
ghost use Rattle.std.proofs.lemmas.List.Edits.{sets};
ghost use Rattle.base.specs.Told.{Tells};
ghost use Rattle.field.specs.Field.{le_bytes, words};
ghost use Rattle.bundle.specs.Content.{bytes_in, size_in, content_of};
ghost use Rattle.writer.specs.Writer.{data_of, starts_from, bundle_bytes, most_data};
ghost use Rattle.tidied.specs.Tidy.{
  first_contents,
  tidy_len_of,
  tidy_of,
  tidied_told,
  tidy_outcome,
  tidy_told,
};

use bundle::{Slot, SlotNumber, check_images, slot_at};
use copy::copy_into;
use field::put;
use refusal::Refusal;
use slot_sizes::{MOST, data_size, size_at, slot_count, start_at};

// How long the tidy form of a set is. In line in both callers: by a call it takes a third more of a set of few slots.
#[inline(always)]
#[tactic(auto, using(tidied::proofs::Laws::length_tidy, tidied::proofs::Laws::few_slots), unfolding(tidied::specs::Tidy::tidy_len_of))]
pub fn tidy_len(set: &[u8]) -> Result<usize, Refusal>
    ensures { Tells tidied_told result (tidy_len_of set.now) }
{
    check_images(set).or(Err(Refusal::TidySet))?;
    let n = slot_count(set);
    let size = data_size(set, n);
    if MOST < size {
        return Err(Refusal::TidyRoom);
    }
    Ok(8 + 8 * n + size)
}

// Writes a number within the buffer.
#[tactic(auto, unfolding(field::specs::Field::put_at))]
fn store(to: &mut [u8], at: usize, v: u32)
    requires { at + 4 ≤ length to.old }
    ensures { to.new ≡ sets to.old at (le_bytes 4 v) }
{
    put(to, at, v).unwrap();
}

// Writes the starts of the first n slots.
fn put_starts(to: &mut [u8], set: &[u8], n: usize)
    requires { (8 + 4 * n ≤ length to.old) × (length (data_of (first_contents set.now n)) ≤ most_data) }
    ensures { to.new ≡ sets to.old 8 (words (starts_from 0 (first_contents set.now n))) }
{
    let mut sum: usize = 0;
    for i in 0..n {
        store(to, 8 + 4 * i, start_at(set, i, sum as u32));
        sum += size_at(set, i);
    }
}

// The length of slot i. Not in line, as `start_at` is not, lest the loop below become a `memset`.
#[inline(never)]
fn length_at(set: &[u8], i: usize) -> usize
    ensures { result ≡ size_in (content_of set.now i) }
{
    size_at(set, i)
}

// Writes their lengths.
fn put_lengths(to: &mut [u8], at: usize, set: &[u8], n: usize)
    requires { (at + 4 * n ≤ length to.old) × (length (data_of (first_contents set.now n)) ≤ most_data) }
    ensures { to.new ≡ sets to.old at (words (map size_in (first_contents set.now n))) }
{
    for i in 0..n {
        store(to, at + 4 * i, length_at(set, i) as u32);
    }
}

// Writes the bytes of slot i.
#[tactic(auto, using(bundle::proofs::Laws::slot_within, bundle::proofs::Laws::size_there, copy::proofs::Laws::copied_stored))]
fn put_content(to: &mut [u8], at: usize, set: &[u8], i: usize)
    requires { at + size_in (content_of set.now i) ≤ length to.old }
    ensures { to.new ≡ sets to.old at (bytes_in (content_of set.now i)) }
{
    match slot_at(set, SlotNumber(i)) {
        Slot::At(from, size) => copy_into(to, at, &set[from..from + size], size),
        Slot::Absent | Slot::Missing => {}
    }
}

// Writes the bytes of the first n slots, one behind the other.
fn put_data(to: &mut [u8], at: usize, set: &[u8], n: usize)
    requires { at + length (data_of (first_contents set.now n)) ≤ length to.old }
    ensures { to.new ≡ sets to.old at (data_of (first_contents set.now n)) }
{
    let mut sum: usize = 0;
    for i in 0..n {
        put_content(to, at + sum, set, i);
        sum += size_at(set, i);
    }
}

// Writes the tidy form, of n slots.
#[tactic(auto, using(tidied::proofs::Laws::form_stored, tidied::proofs::Laws::length_first, writer::proofs::Laws::length_bundle))]
fn put_form(to: &mut [u8], set: &[u8], n: usize, size: usize)
    requires { (length (bundle_bytes (first_contents set.now n)) ≤ length to.old)
        × (size ≡ length (data_of (first_contents set.now n)))
        × (size ≤ most_data)
        × (n ≤ 64) }
    ensures { to.new ≡ sets to.old 0 (bundle_bytes (first_contents set.now n)) }
{
    store(to, 0, n as u32);
    store(to, 4, size as u32);
    put_starts(to, set, n);
    put_lengths(to, 8 + 4 * n, set, n);
    put_data(to, 8 + 8 * n, set, n);
}

// The tidy form, which is so long: written where it fits.
#[tactic(auto, using(base::proofs::Lists::sets_front, tidied::proofs::Laws::tidy_room), unfolding(tidied::specs::Tidy::tidy_of))]
fn tidy_of(set: &[u8], to: &mut [u8], len: usize) -> Result<usize, Refusal>
    requires { tidy_len_of set.now ≡ Ok len }
    ensures { tidy_outcome result to.new ≡ tidy_of set.now to.old }
{
    if to.len() < len {
        return Err(Refusal::TidyRoom);
    }
    let n = slot_count(set);
    put_form(to, set, n, len - 8 - 8 * n);
    Ok(len)
}

// The tidy form of a set, as the first bytes of a buffer. Where it does not fit, nothing is written.
#[tactic(auto, unfolding(tidied::specs::Tidy::tidy_of))]
pub fn tidy(set: &[u8], to: &mut [u8]) -> Result<usize, Refusal>
    ensures { Tells tidy_told (tidy_outcome result to.new) (tidy_of set.now to.old) }
{
    let len = tidy_len(set)?;
    tidy_of(set, to, len)
}
