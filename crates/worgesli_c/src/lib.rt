// The archive for C and Rust: each export is the function of its name of crate worgesli, under its contract; it stands here once more since the kit makes an
// archive of one crate's own exports (the C interface). A slice crosses as a pointer and a length, a
// struct by value, an array behind a reference as a pointer.
#![tactic(auto)]

ghost use Rattle.std.specs.Prelude.{◌≡◌};
ghost use Rattle.utf8.specs.Utf8.{utf8};
ghost use Rattle.bundle.specs.Bundle.{images_checked, names_checked};
ghost use Rattle.image.specs.Image.{range_of};
ghost use Rattle.packet.specs.Packet.{decode_of};
ghost use Rattle.raw.specs.Raw.{is_session, opened_raw, stepped_at, told_in};
ghost use Rattle.raw_forecast.specs.RawForecast.{forecast_raw};
ghost use Rattle.raw_packet.specs.RawPacket.{raw_packet};
ghost use Rattle.raw_records.specs.Records.{raw_entry, raw_range, raw_forecast, raw_tidied, checked_number};
ghost use Rattle.in_place.specs.Place.{raw_at, waits_at};
ghost use Rattle.raw_step.specs.RawStep.{raw_outcome, step_raw, closed_raw, wanted_raw};
ghost use Rattle.tidied.specs.Tidy.{tidy_len_of, tidy_of};
ghost use Rattle.worgesli.specs.Worgesli.{
  entry_raw,
  next_raw,
  page_outcome,
  crossed,
  sheet_raw,
  room_outcome,
  tidy_raw,
  reset_outcome,
  reset_raw,
};

use raw::{RawPlaced, RawSession, RawStepped};
use raw_packet::RawPacket;
use raw_records::{RawEntry, RawForecast, RawRange, RawSheet, RawTidied};

// The number of this interface: another where a struct or a function of it is another.
#[unsafe(no_mangle)]
pub extern "C" fn worgesli_abi() -> u32
    ensures { result ≡ 2 }
{
    worgesli::worgesli_abi()
}

// The same under a name with the number in it, for a caller that must not link with another interface.
#[unsafe(no_mangle)]
pub extern "C" fn worgesli_abi_2() -> u32
    ensures { result ≡ 2 }
{
    worgesli::worgesli_abi_2()
}

// A session opened with a mode, a command or none, and a backend; no session where a number names none.
#[unsafe(no_mangle)]
pub extern "C" fn worgesli_open(mode: u32, command: u32, backend: u32) -> RawSession
    ensures { result ≡ opened_raw mode command backend }
{
    worgesli::worgesli_open(mode, command, backend)
}

// One step: a delivery, the image set and the names, and the table, reply and out buffers.
#[unsafe(no_mangle)]
pub extern "C" fn worgesli_step(
    s: RawSession,
    delivery: &[u8],
    set: &[u8],
    names: &[u8],
    table: &mut [u8],
    reply: &mut [u8],
    out: &mut [u8],
) -> RawStepped
    ensures { raw_outcome result table.new reply.new out.new
        ≡ step_raw s delivery.now set.now names.now table.old reply.old out.old }
{
    worgesli::worgesli_step(s, delivery, set, names, table, reply, out)
}

// As worgesli_step, with the session in place: mode, command, backend and phase; reads, count, at, base, len, done, outstanding, due and width; the window.
#[unsafe(no_mangle)]
pub extern "C" fn worgesli_step_in_place(
    head: &mut [u32; 4],
    numbers: &mut [u64; 9],
    window: &mut [u8; 48],
    delivery: &[u8],
    set: &[u8],
    names: &[u8],
    table: &mut [u8],
    reply: &mut [u8],
    out: &mut [u8],
) -> RawPlaced
    ensures { (raw_outcome (stepped_at (raw_at head.new numbers.new window.new) (told_in result))
        table.new reply.new out.new
        ≡ step_raw (raw_at head.old numbers.old window.old)
        delivery.now set.now names.now table.old reply.old out.old)
        × (result.waits ≡ waits_at numbers.new) }
{
    worgesli::worgesli_step_in_place(
        head, numbers, window, delivery, set, names, table, reply, out,
    )
}

// The channel was closed.
#[unsafe(no_mangle)]
pub extern "C" fn worgesli_closed(s: RawSession) -> RawStepped
    ensures { result ≡ closed_raw s }
{
    worgesli::worgesli_closed(s)
}

// Whether the numbers are a session's.
#[unsafe(no_mangle)]
pub extern "C" fn worgesli_is_session(s: RawSession) -> bool
    ensures { result ≡ is_session s }
{
    worgesli::worgesli_is_session(s)
}

// How many bytes the next step asks for: 0 where it needs none.
#[unsafe(no_mangle)]
pub extern "C" fn worgesli_wanted(s: RawSession) -> usize
    ensures { result ≡ wanted_raw s }
{
    worgesli::worgesli_wanted(s)
}

// As worgesli_wanted, of a session in place.
#[unsafe(no_mangle)]
pub extern "C" fn worgesli_wanted_in_place(
    head: &[u32; 4],
    numbers: &[u64; 9],
    window: &[u8; 48],
) -> usize
    ensures { result ≡ wanted_raw (raw_at head.now numbers.now window.now) }
{
    worgesli::worgesli_wanted_in_place(head, numbers, window)
}

#[unsafe(no_mangle)]
pub extern "C" fn worgesli_check_images(set: &[u8]) -> u32
    ensures { result ≡ checked_number (images_checked set.now) }
{
    worgesli::worgesli_check_images(set)
}

#[unsafe(no_mangle)]
pub extern "C" fn worgesli_check_names(names: &[u8]) -> u32
    ensures { result ≡ checked_number (names_checked names.now) }
{
    worgesli::worgesli_check_names(names)
}

// Where the bytes that a read asks for stand in the set.
#[unsafe(no_mangle)]
pub extern "C" fn worgesli_image_range(set: &[u8], id: u64, offset: u64, len: u64) -> RawRange
    ensures { result ≡ raw_range (range_of set.now id offset len) }
{
    worgesli::worgesli_image_range(set, id, offset, len)
}

// Entry i of a table of a width of 32 or 64 bits; of any other width there is none.
#[unsafe(no_mangle)]
pub extern "C" fn worgesli_entry_at(table: &[u8], width: u64, i: usize) -> RawEntry
    ensures { result ≡ raw_entry (entry_raw table.now width i) }
{
    worgesli::worgesli_entry_at(table, width, i)
}

// The first selected entry from `from` on and before `entries`, of a table of a width of 32 or 64 bits; the search ends with the table. Of any other width none
// is selected.
#[unsafe(no_mangle)]
pub extern "C" fn worgesli_next_selected(
    table: &[u8],
    width: u64,
    entries: usize,
    names: &[u8],
    from: usize,
) -> usize
    ensures { result ≡ next_raw table.now width entries names.now from }
{
    worgesli::worgesli_next_selected(table, width, entries, names, from)
}

// The region sheet of a table of a width of 32 or 64 bits, written to a page. Of any other width there is no entry, and nothing is written.
#[unsafe(no_mangle)]
pub extern "C" fn worgesli_region_sheet(table: &[u8], width: u64, page: &mut [u8]) -> RawSheet
    ensures { page_outcome result page.new ≡ crossed (sheet_raw table.now width page.old) }
{
    worgesli::worgesli_region_sheet(table, width, page)
}

// How large the fetch of a table of a width of 32 or 64 bits will be, with these names. Of any other width there is no entry.
#[unsafe(no_mangle)]
pub extern "C" fn worgesli_forecast_table(table: &[u8], width: u64, names: &[u8]) -> RawForecast
    ensures { result ≡ raw_forecast (forecast_raw table.now width names.now) }
{
    worgesli::worgesli_forecast_table(table, width, names)
}

// The tidy form of an image set, written to a buffer.
#[unsafe(no_mangle)]
pub extern "C" fn worgesli_tidy(set: &[u8], to: &mut [u8]) -> RawTidied
    ensures { room_outcome result to.new ≡ tidy_raw (tidy_of set.now to.old) }
{
    worgesli::worgesli_tidy(set, to)
}

// How long it is.
#[unsafe(no_mangle)]
pub extern "C" fn worgesli_tidy_len(set: &[u8]) -> RawTidied
    ensures { result ≡ raw_tidied (tidy_len_of set.now) }
{
    worgesli::worgesli_tidy_len(set)
}

// Whether the bytes are UTF-8.
#[unsafe(no_mangle)]
pub extern "C" fn worgesli_utf8(bytes: &[u8]) -> bool
    ensures { result ≡ utf8 bytes.now }
{
    worgesli::worgesli_utf8(bytes)
}

// A packet, decoded from any bytes.
#[unsafe(no_mangle)]
pub extern "C" fn worgesli_parse_packet(bytes: &[u8]) -> RawPacket
    ensures { result ≡ raw_packet (decode_of bytes.now) }
{
    worgesli::worgesli_parse_packet(bytes)
}

// Reset, 8 bytes of the out buffer.
#[unsafe(no_mangle)]
pub extern "C" fn worgesli_reset(out: &mut [u8]) -> u32
    ensures { reset_outcome result out.new ≡ reset_raw out.old }
{
    worgesli::worgesli_reset(out)
}
