// Packets: decoding, the length rule, building.
use crate::show;
use crate::show::Hex;
use crate::text::Line;
use build::{Request, build};
use command::{SaharaCmd, SaharaCmdModeCmd, SaharaMode};
use field::Width;
use packet::{SaharaPacket, SaharaPacketBody, Unk, sahara_parse_packet, sahara_read_packet_length};
use refusal::Refusal;
use std::io::Write;
use std::{fmt, io};

// The kind of a body, for its number: `From<SaharaCmd> for u32` is tried by this.
fn kind_of(body: SaharaPacketBody) -> SaharaCmd {
    match body {
        SaharaPacketBody::HelloReq(_) => SaharaCmd::Hello,
        SaharaPacketBody::HelloResp(_) => SaharaCmd::HelloResp,
        SaharaPacketBody::ReadReq(_) => SaharaCmd::ReadData,
        SaharaPacketBody::Eoi(_) => SaharaCmd::EndOfImage,
        SaharaPacketBody::DoneReq => SaharaCmd::Done,
        SaharaPacketBody::DoneResp(_) => SaharaCmd::DoneResp,
        SaharaPacketBody::ResetResp => SaharaCmd::ResetResp,
        SaharaPacketBody::DebugReq(_) => SaharaCmd::MemDebug,
        SaharaPacketBody::ReadMemReq(_) => SaharaCmd::MemRead,
        SaharaPacketBody::CommandReady => SaharaCmd::CommandReady,
        SaharaPacketBody::ExecResp(_) => SaharaCmd::ExecuteResp,
        SaharaPacketBody::ExecData(_) => SaharaCmd::ExecuteData,
        SaharaPacketBody::Debug64Req(_) => SaharaCmd::MemDebug64,
        SaharaPacketBody::ReadMem64Req(_) => SaharaCmd::MemRead64,
        SaharaPacketBody::ReadData64Req(_) => SaharaCmd::ReadData64,
    }
}

// The six words of a hello that nobody uses.
#[derive(Clone, Copy)]
struct Unused(Unk);

impl fmt::Display for Unused {
    fn fmt<W: fmt::Write>(&self, f: &mut fmt::Formatter<W>) -> fmt::Result {
        let u = self.0;
        write!(f, " {:x} {:x} {:x}", u.unk0, u.unk1, u.unk2)?;
        write!(f, " {:x} {:x} {:x}", u.unk3, u.unk4, u.unk5)
    }
}

// Three words, the mode and the unused words of a hello.
fn hello<W: Write>(
    to: &mut W,
    first: u32,
    second: u32,
    third: u32,
    mode: SaharaMode,
    unk: Unk,
) -> io::Result<()> {
    let mode = u32::from(mode);
    write!(
        to,
        " {first:x} {second:x} {third:x} {mode:x}{}",
        Unused(unk)
    )
}

// The fields of a body, in document 01's order.
fn fields<W: Write>(to: &mut W, body: SaharaPacketBody) -> io::Result<()> {
    match body {
        SaharaPacketBody::HelloReq(h) => hello(to, h.ver, h.compatible, h.max_len, h.mode, h.unk),
        SaharaPacketBody::HelloResp(h) => hello(to, h.ver, h.compatible, h.status, h.mode, h.unk),
        SaharaPacketBody::ReadReq(r) => write!(to, " {:x} {:x} {:x}", r.image, r.offset, r.len),
        SaharaPacketBody::Eoi(e) => write!(to, " {:x} {:x}", e.image, e.status),
        SaharaPacketBody::DoneReq => Ok(()),
        SaharaPacketBody::DoneResp(d) => write!(to, " {:x}", d.status),
        SaharaPacketBody::ResetResp => Ok(()),
        SaharaPacketBody::DebugReq(d) => write!(to, " {:x} {:x}", d.addr, d.len),
        SaharaPacketBody::ReadMemReq(r) => write!(to, " {:x} {:x}", r.addr, r.len),
        SaharaPacketBody::CommandReady => Ok(()),
        SaharaPacketBody::ExecResp(e) => { write!(to, " {:x} {:x}", u32::from(e.command), e.len) }
        SaharaPacketBody::ExecData(e) => write!(to, " {:x}", u32::from(e.command)),
        SaharaPacketBody::Debug64Req(d) => write!(to, " {:x} {:x}", d.addr, d.len),
        SaharaPacketBody::ReadMem64Req(r) => write!(to, " {:x} {:x}", r.addr, r.len),
        SaharaPacketBody::ReadData64Req(r) => {
            write!(to, " {:x} {:x} {:x}", r.image, r.offset, r.len)
        }
    }
}

fn packet<W: Write>(to: &mut W, p: SaharaPacket) -> io::Result<()> {
    let kind = u32::from(kind_of(p.body));
    write!(to, "packet {kind:x} {:x}", p.len)?;
    fields(to, p.body)
}

fn decoded<W: Write>(to: &mut W, d: Result<SaharaPacket, Refusal>) -> io::Result<()> {
    match d {
        Ok(p) => packet(to, p),
        Err(k) => show::refused(to, k),
    }
}

// d BYTES: the kind's number, the length field, the fields.
pub(crate) fn decode<W: Write>(to: &mut W, line: Line<'_>) -> io::Result<()> {
    let mut bytes = [0; 1024];
    let bytes = line.bytes(1, &mut bytes);
    decoded(to, sahara_parse_packet(bytes))
}

// l LENGTH
pub(crate) fn length<W: Write>(to: &mut W, line: Line<'_>) -> io::Result<()> {
    show::checked(to, sahara_read_packet_length(line.number(1)))
}

fn built<W: Write>(to: &mut W, b: Result<usize, Refusal>) -> io::Result<()> {
    match b {
        Ok(k) => write!(to, "send {k}"),
        Err(k) => show::refused(to, k),
    }
}

// What the words ask to send.
fn request(line: Line<'_>) -> Option<Request> {
    let command = || SaharaCmdModeCmd::try_from(line.number(3)).ok();
    let mem_read = |width| Request::MemRead(width, line.long(3), line.long(4));
    match line.number(2) {
        2 => SaharaMode::try_from(line.number(3))
            .ok()
            .map(Request::HelloResp),
        5 => Some(Request::Done),
        7 => Some(Request::Reset),
        0x0a => Some(mem_read(Width::Bits32)),
        0x0c => Some(Request::SwitchMode),
        0x0d => command().map(Request::Execute),
        0x0f => command().map(Request::ExecuteData),
        0x11 => Some(mem_read(Width::Bits64)),
        _ => None,
    }
}

// b SIZE COMMAND ..: the packet of a command number in an out buffer of SIZE bytes of 0xAA, and the whole buffer afterwards.
pub(crate) fn build_case<W: Write>(to: &mut W, line: Line<'_>) -> io::Result<()> {
    let size = line.index(1);
    if 64 < size {
        return show::nothing(to);
    }
    let Some(request) = request(line) else {
        return show::nothing(to);
    };
    let mut out = [0xAA; 64];
    let out = &mut out[..size];
    built(to, build(out, request))?;
    write!(to, " {}", Hex(out))
}
