// The host for C and Rust. A slice crosses as a pointer and a length, a struct by value, an array behind a reference as a pointer.
#![tactic(auto)]

ghost use Rattle.std.specs.Prelude.{◌≡◌};
ghost use Rattle.utf8.specs.Utf8.{utf8};
ghost use Rattle.bundle.specs.Bundle.{images_checked, names_checked};
ghost use Rattle.image.specs.Image.{range_of};
ghost use Rattle.packet.specs.Packet.{decode_of};
ghost use Rattle.raw.specs.Raw.{is_session, opened_raw, stepped_at, told_in};
ghost use Rattle.raw_forecast.specs.RawForecast.{forecast_raw};
ghost use Rattle.raw_packet.specs.RawPacket.{raw_packet};
ghost use Rattle.raw_records.specs.Records.{raw_entry, raw_range, raw_forecast, raw_tidied, checked_number};
ghost use Rattle.in_place.specs.Place.{raw_at, waits_at};
ghost use Rattle.raw_step.specs.RawStep.{raw_outcome, step_raw, closed_raw, wanted_raw};
ghost use Rattle.tidied.specs.Tidy.{tidy_len_of, tidy_of};
ghost use Rattle.worgesli.specs.Worgesli.{
  entry_raw,
  next_raw,
  page_outcome,
  crossed,
  sheet_raw,
  room_outcome,
  tidy_raw,
  reset_outcome,
  reset_raw,
};

use build::sahara_reset;
use bundle::{check_images, check_names};
use entry::entry_at;
use field::Width;
use image::{ImageId, image_range};
use packet::sahara_parse_packet;
use raw::{RawPlaced, RawSession, RawStepped};
use raw_packet::RawPacket;
use raw_records::{RawEntry, RawForecast, RawRange, RawSheet, RawTidied, refused_number};
use refusal::Refusal;
use selection::next_selected;
use sheet::region_sheet;

// The number of this interface: another where a struct or a function of it is another.
#[unsafe(no_mangle)]
pub extern "C" fn worgesli_abi() -> u32
    ensures { result ≡ 2 }
{
    2
}

// The same under a name with the number in it, for a caller that must not link with another interface.
#[unsafe(no_mangle)]
pub extern "C" fn worgesli_abi_2() -> u32
    ensures { result ≡ 2 }
{
    worgesli_abi()
}

// A session opened with a mode, a command or none, and a backend; no session where a number names none.
#[unsafe(no_mangle)]
pub extern "C" fn worgesli_open(mode: u32, command: u32, backend: u32) -> RawSession
    ensures { result ≡ opened_raw mode command backend }
{
    raw::opened(mode, command, backend)
}

// One step: a delivery, the image set and the names, and the table, reply and out buffers.
#[unsafe(no_mangle)]
pub extern "C" fn worgesli_step(
    s: RawSession,
    delivery: &[u8],
    set: &[u8],
    names: &[u8],
    table: &mut [u8],
    reply: &mut [u8],
    out: &mut [u8],
) -> RawStepped
    ensures { raw_outcome result table.new reply.new out.new
        ≡ step_raw s delivery.now set.now names.now table.old reply.old out.old }
{
    let mut head = [s.mode, s.command, s.backend, s.phase];
    let mut numbers = [
        s.reads,
        s.count as u64,
        s.at as u64,
        s.base,
        s.len,
        s.done,
        s.outstanding,
        s.due,
        s.width,
    ];
    let mut window = s.window;
    let told = raw_step::step(
        &mut head,
        &mut numbers,
        &mut window,
        delivery,
        set,
        names,
        table,
        reply,
        out,
    );
    raw::stepped_at(in_place::raw_at(&head, &numbers, &window), told)
}

// As worgesli_step, with the session in place: mode, command, backend and phase; reads, count, at, base, len, done, outstanding, due and width; the window.
#[unsafe(no_mangle)]
pub extern "C" fn worgesli_step_in_place(
    head: &mut [u32; 4],
    numbers: &mut [u64; 9],
    window: &mut [u8; 48],
    delivery: &[u8],
    set: &[u8],
    names: &[u8],
    table: &mut [u8],
    reply: &mut [u8],
    out: &mut [u8],
) -> RawPlaced
    ensures { (raw_outcome (stepped_at (raw_at head.new numbers.new window.new) (told_in result))
        table.new reply.new out.new
        ≡ step_raw (raw_at head.old numbers.old window.old)
        delivery.now set.now names.now table.old reply.old out.old)
        × (result.waits ≡ waits_at numbers.new) }
{
    raw_place::step_in_place(
        head, numbers, window, delivery, set, names, table, reply, out,
    )
}

// The channel was closed.
#[tactic(auto, using(raw_step::proofs::Laws::closed_no, raw_step::proofs::Laws::closed_is))]
#[unsafe(no_mangle)]
pub extern "C" fn worgesli_closed(s: RawSession) -> RawStepped
    ensures { result ≡ closed_raw s }
{
    if !raw::is_session(s) {
        return raw::refused(s, Refusal::Limit);
    }
    RawStepped::from(host::closed(raw::session_of(s)))
}

// Whether the numbers are a session's.
#[unsafe(no_mangle)]
pub extern "C" fn worgesli_is_session(s: RawSession) -> bool
    ensures { result ≡ is_session s }
{
    raw::is_session(s)
}

// How many bytes the next step asks for: 0 where it needs none.
#[unsafe(no_mangle)]
pub extern "C" fn worgesli_wanted(s: RawSession) -> usize
    ensures { result ≡ wanted_raw s }
{
    raw_place::wanted(s)
}

// As worgesli_wanted, of a session in place.
#[unsafe(no_mangle)]
pub extern "C" fn worgesli_wanted_in_place(
    head: &[u32; 4],
    numbers: &[u64; 9],
    window: &[u8; 48],
) -> usize
    ensures { result ≡ wanted_raw (raw_at head.now numbers.now window.now) }
{
    raw_place::wanted_in_place(head, numbers, window)
}

#[unsafe(no_mangle)]
pub extern "C" fn worgesli_check_images(set: &[u8]) -> u32
    ensures { result ≡ checked_number (images_checked set.now) }
{
    refused_number(check_images(set))
}

#[unsafe(no_mangle)]
pub extern "C" fn worgesli_check_names(names: &[u8]) -> u32
    ensures { result ≡ checked_number (names_checked names.now) }
{
    refused_number(check_names(names))
}

// Where the bytes that a read asks for stand in the set.
#[unsafe(no_mangle)]
pub extern "C" fn worgesli_image_range(set: &[u8], id: u64, offset: u64, len: u64) -> RawRange
    ensures { result ≡ raw_range (range_of set.now id offset len) }
{
    RawRange::from(image_range(set, ImageId(id), offset, len))
}

// Entry i of a table of a width of 32 or 64 bits; of any other width there is none.
#[tactic(auto, unfolding(crate::specs::Worgesli::entry_raw))]
#[unsafe(no_mangle)]
pub extern "C" fn worgesli_entry_at(table: &[u8], width: u64, i: usize) -> RawEntry
    ensures { result ≡ raw_entry (entry_raw table.now width i) }
{
    RawEntry::from(match Width::try_from(width) {
        Ok(width) => entry_at(table, width, i),
        Err(_) => None,
    })
}

// The first selected entry from `from` on and before `entries`, of a table of a width of 32 or 64 bits; the search ends with the table. Of any other width none
// is selected.
#[tactic(auto, unfolding(crate::specs::Worgesli::next_raw))]
#[unsafe(no_mangle)]
pub extern "C" fn worgesli_next_selected(
    table: &[u8],
    width: u64,
    entries: usize,
    names: &[u8],
    from: usize,
) -> usize
    ensures { result ≡ next_raw table.now width entries names.now from }
{
    match Width::try_from(width) {
        Ok(width) => next_selected(table, width, entries, names, from),
        Err(_) => from.max(entries),
    }
}

// The region sheet of a table of a width of 32 or 64 bits, written to a page. Of any other width there is no entry, and nothing is written.
#[tactic(auto, unfolding(crate::specs::Worgesli::sheet_raw))]
#[unsafe(no_mangle)]
pub extern "C" fn worgesli_region_sheet(table: &[u8], width: u64, page: &mut [u8]) -> RawSheet
    ensures { page_outcome result page.new ≡ crossed (sheet_raw table.now width page.old) }
{
    RawSheet::from(match Width::try_from(width) {
        Ok(width) => region_sheet(table, width, page),
        Err(_) => Ok(0),
    })
}

// How large the fetch of a table of a width of 32 or 64 bits will be, with these names. Of any other width there is no entry.
#[unsafe(no_mangle)]
pub extern "C" fn worgesli_forecast_table(table: &[u8], width: u64, names: &[u8]) -> RawForecast
    ensures { result ≡ raw_forecast (forecast_raw table.now width names.now) }
{
    raw_forecast::forecast_table(table, width, names)
}

// The tidy form of an image set, written to a buffer.
#[unsafe(no_mangle)]
pub extern "C" fn worgesli_tidy(set: &[u8], to: &mut [u8]) -> RawTidied
    ensures { room_outcome result to.new ≡ tidy_raw (tidy_of set.now to.old) }
{
    RawTidied::from(tidy::tidy(set, to))
}

// How long it is.
#[unsafe(no_mangle)]
pub extern "C" fn worgesli_tidy_len(set: &[u8]) -> RawTidied
    ensures { result ≡ raw_tidied (tidy_len_of set.now) }
{
    RawTidied::from(tidy::tidy_len(set))
}

// Whether the bytes are UTF-8.
#[unsafe(no_mangle)]
pub extern "C" fn worgesli_utf8(bytes: &[u8]) -> bool
    ensures { result ≡ utf8 bytes.now }
{
    utf8::valid(bytes)
}

// A packet, decoded from any bytes.
#[unsafe(no_mangle)]
pub extern "C" fn worgesli_parse_packet(bytes: &[u8]) -> RawPacket
    ensures { result ≡ raw_packet (decode_of bytes.now) }
{
    RawPacket::from(sahara_parse_packet(bytes))
}

// Reset, 8 bytes of the out buffer.
#[tactic(auto, unfolding(crate::specs::Worgesli::reset_raw))]
#[unsafe(no_mangle)]
pub extern "C" fn worgesli_reset(out: &mut [u8]) -> u32
    ensures { reset_outcome result out.new ≡ reset_raw out.old }
{
    refused_number(sahara_reset(out))
}
