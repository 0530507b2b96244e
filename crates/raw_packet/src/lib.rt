// A decoded packet as plain numbers: what crosses to C and Rust.
#![tactic(auto)]

ghost use Rattle.std.specs.Prelude.{◌≡◌};
ghost use Rattle.command.specs.Command.{mode_number, command_number, kind_number};
ghost use Rattle.raw_packet.specs.RawPacket.{refused_packet, plain_packet, hello_packet, body_packet, raw_packet};

use command::{SaharaCmd, SaharaCmdModeCmd, SaharaMode};
use packet::{SaharaPacket, SaharaPacketBody, Unk};
use refusal::Refusal;

#[repr(C)]
#[derive(Clone, Copy, Default)]
pub struct RawPacket {
    pub refused: u32,
    pub command: u32,
    pub len: u32,
    pub value: u32,
    pub first: u64,
    pub second: u64,
    pub third: u64,
    pub unk0: u32,
    pub unk1: u32,
    pub unk2: u32,
    pub unk3: u32,
    pub unk4: u32,
    pub unk5: u32,
}

// A packet whose body is three longs at most.
fn longs(kind: SaharaCmd, len: u32, first: u64, second: u64, third: u64) -> RawPacket
    ensures { result ≡ plain_packet (kind_number kind) len 0 first second third }
{
    RawPacket {
        command: u32::from(kind),
        len,
        first,
        second,
        third,
        ..RawPacket::default()
    }
}

// Three words at most.
fn words(kind: SaharaCmd, len: u32, first: u32, second: u32, third: u32) -> RawPacket
    ensures { result ≡ plain_packet (kind_number kind) len 0 first second third }
{
    longs(kind, len, first as u64, second as u64, third as u64)
}

// A command and a word.
fn execute(kind: SaharaCmd, len: u32, command: SaharaCmdModeCmd, first: u32) -> RawPacket
    ensures { result ≡ plain_packet (kind_number kind) len (command_number command) first 0 0 }
{
    RawPacket {
        value: u32::from(command),
        ..words(kind, len, first, 0, 0)
    }
}

// Three words, the mode and the unused words of a hello.
fn hello(
    kind: SaharaCmd,
    len: u32,
    mode: SaharaMode,
    first: u32,
    second: u32,
    third: u32,
    unk: Unk,
) -> RawPacket
    ensures { result ≡ hello_packet (kind_number kind) len (mode_number mode) first second third unk }
{
    RawPacket {
        value: u32::from(mode),
        unk0: unk.unk0,
        unk1: unk.unk1,
        unk2: unk.unk2,
        unk3: unk.unk3,
        unk4: unk.unk4,
        unk5: unk.unk5,
        ..words(kind, len, first, second, third)
    }
}

impl From<SaharaPacket> for RawPacket {
    ghost from_gives = { λ p r. r ≡ body_packet p.len p.body };

    fn from(p: SaharaPacket) -> RawPacket {
        let len = p.len;
        match p.body {
            SaharaPacketBody::HelloReq(b) => hello(
                SaharaCmd::Hello,
                len,
                b.mode,
                b.ver,
                b.compatible,
                b.max_len,
                b.unk,
            ),
            SaharaPacketBody::HelloResp(b) => hello(
                SaharaCmd::HelloResp,
                len,
                b.mode,
                b.ver,
                b.compatible,
                b.status,
                b.unk,
            ),
            SaharaPacketBody::ReadReq(b) => words(
                SaharaCmd::ReadData,
                len,
                b.image,
                b.offset,
                b.len,
            ),
            SaharaPacketBody::Eoi(b) => words(SaharaCmd::EndOfImage, len, b.image, b.status, 0),
            SaharaPacketBody::DoneReq => words(SaharaCmd::Done, len, 0, 0, 0),
            SaharaPacketBody::DoneResp(b) => words(SaharaCmd::DoneResp, len, b.status, 0, 0),
            SaharaPacketBody::ResetResp => words(SaharaCmd::ResetResp, len, 0, 0, 0),
            SaharaPacketBody::DebugReq(b) => words(SaharaCmd::MemDebug, len, b.addr, b.len, 0),
            SaharaPacketBody::ReadMemReq(b) => words(SaharaCmd::MemRead, len, b.addr, b.len, 0),
            SaharaPacketBody::CommandReady => words(SaharaCmd::CommandReady, len, 0, 0, 0),
            SaharaPacketBody::ExecResp(b) => execute(SaharaCmd::ExecuteResp, len, b.command, b.len),
            SaharaPacketBody::ExecData(b) => execute(SaharaCmd::ExecuteData, len, b.command, 0),
            SaharaPacketBody::Debug64Req(b) => longs(SaharaCmd::MemDebug64, len, b.addr, b.len, 0),
            SaharaPacketBody::ReadMem64Req(b) => longs(SaharaCmd::MemRead64, len, b.addr, b.len, 0),
            SaharaPacketBody::ReadData64Req(b) => longs(
                SaharaCmd::ReadData64,
                len,
                b.image,
                b.offset,
                b.len,
            ),
        }
    }
}

impl From<Refusal> for RawPacket {
    ghost from_gives = { λ why r. r ≡ refused_packet why };

    fn from(why: Refusal) -> RawPacket {
        RawPacket {
            refused: u8::from(why) as u32,
            ..RawPacket::default()
        }
    }
}

impl From<Result<SaharaPacket, Refusal>> for RawPacket {
    ghost from_gives = { λ d r. r ≡ raw_packet d };

    fn from(d: Result<SaharaPacket, Refusal>) -> RawPacket {
        match d {
            Ok(p) => RawPacket::from(p),
            Err(why) => RawPacket::from(why),
        }
    }
}
