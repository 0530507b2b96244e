// Packets: an enum whose cases hold body structs, which hold the mode or the command; decoding; the length rule.
#![tactic(auto)]

ghost use Rattle.std.specs.Prelude.{◌≡◌, ◌+◌, ◌≤◌, length, drop, MatchResult, Ok, Err};
ghost use Rattle.command.specs.Command.{least_body, mode_of};
ghost use Rattle.field.specs.Field.{le};
ghost use Rattle.base.specs.Told.{Tells};
ghost use Rattle.packet.specs.Told.{decoded_told, length_told};
ghost use Rattle.packet.specs.Packet.{word, hello_words, body_of, kind_of, decode_of, length_checked};

use command::{Class, SaharaCmd, SaharaCmdModeCmd, SaharaMode};
use field::Number;
use reader::read_at;
use refusal::Refusal;

// The six words of a hello that nobody uses.
#[derive(Clone, Copy)]
pub struct Unk {
    pub unk0: u32,
    pub unk1: u32,
    pub unk2: u32,
    pub unk3: u32,
    pub unk4: u32,
    pub unk5: u32,
}

#[derive(Clone, Copy)]
pub struct HelloReq {
    pub ver: u32,
    pub compatible: u32,
    pub max_len: u32,
    pub mode: SaharaMode,
    pub unk: Unk,
}

#[derive(Clone, Copy)]
pub struct HelloResp {
    pub ver: u32,
    pub compatible: u32,
    pub status: u32,
    pub mode: SaharaMode,
    pub unk: Unk,
}

#[derive(Clone, Copy)]
pub struct ReadReq {
    pub image: u32,
    pub offset: u32,
    pub len: u32,
}

#[derive(Clone, Copy)]
pub struct Eoi {
    pub image: u32,
    pub status: u32,
}

#[derive(Clone, Copy)]
pub struct DoneResp {
    pub status: u32,
}

#[derive(Clone, Copy)]
pub struct ExecResp {
    pub command: SaharaCmdModeCmd,
    pub len: u32,
}

#[derive(Clone, Copy)]
pub struct ExecData {
    pub command: SaharaCmdModeCmd,
}

// These four, of which two are alike, have the Rust's names.
#[derive(Clone, Copy)]
pub struct DebugReq {
    pub addr: u32,
    pub len: u32,
}

#[derive(Clone, Copy)]
pub struct ReadMemReq {
    pub addr: u32,
    pub len: u32,
}

#[derive(Clone, Copy)]
pub struct Debug64Req {
    pub addr: u64,
    pub len: u64,
}

#[derive(Clone, Copy)]
pub struct ReadMem64Req {
    pub addr: u64,
    pub len: u64,
}

#[derive(Clone, Copy)]
pub struct ReadData64Req {
    pub image: u64,
    pub offset: u64,
    pub len: u64,
}

#[derive(Clone, Copy)]
pub enum SaharaPacketBody {
    HelloReq(HelloReq),
    HelloResp(HelloResp),
    ReadReq(ReadReq),
    Eoi(Eoi),
    DoneReq,
    DoneResp(DoneResp),
    ResetResp,
    DebugReq(DebugReq),
    ReadMemReq(ReadMemReq),
    CommandReady,
    ExecResp(ExecResp),
    ExecData(ExecData),
    Debug64Req(Debug64Req),
    ReadMem64Req(ReadMem64Req),
    ReadData64Req(ReadData64Req),
}

// A decoded packet: its length field, which nothing here judges, and its body.
#[derive(Clone, Copy)]
pub struct SaharaPacket {
    pub len: u32,
    pub body: SaharaPacketBody,
}

// The field at an offset, which lies within the bytes.
#[tactic(auto, unfolding(field::specs::Field::field_at))]
fn read<T: Number>(p: &[u8], at: usize) -> T
    requires { at + T.SIZE ≤ length p.now }
    ensures { result ≡ T.of (le T.SIZE (drop at p.now)) }
{
    read_at(p, at).unwrap()
}

// The words of either hello: the third is a HelloResp's status, a Hello's greatest length.
fn hello(p: &[u8]) -> Result<HelloResp, Refusal>
    requires { 48 ≤ length p.now }
    ensures { MatchResult result (λ h. (mode_of (word p.now 3) ≡ Ok h.mode) × (h ≡ hello_words p.now h.mode)) (λ why. mode_of (word p.now 3) ≡ Err why) }
{
    let mode = SaharaMode::try_from(read::<u32>(p, 20))?;
    Ok(HelloResp {
        ver: read(p, 8),
        compatible: read(p, 12),
        status: read(p, 16),
        mode,
        unk: Unk {
            unk0: read(p, 24),
            unk1: read(p, 28),
            unk2: read(p, 32),
            unk3: read(p, 36),
            unk4: read(p, 40),
            unk5: read(p, 44),
        },
    })
}

// The least bytes of a kind's body.
fn least_body(kind: SaharaCmd) -> usize
    ensures { result ≡ least_body kind }
{
    match kind {
        SaharaCmd::Hello => 40,
        SaharaCmd::HelloResp => 40,
        SaharaCmd::ReadData => 12,
        SaharaCmd::EndOfImage => 8,
        SaharaCmd::Done => 0,
        SaharaCmd::DoneResp => 4,
        SaharaCmd::ResetResp => 0,
        SaharaCmd::MemDebug => 8,
        SaharaCmd::MemRead => 8,
        SaharaCmd::CommandReady => 0,
        SaharaCmd::ExecuteResp => 8,
        SaharaCmd::ExecuteData => 4,
        SaharaCmd::MemDebug64 => 16,
        SaharaCmd::MemRead64 => 16,
        SaharaCmd::ReadData64 => 24,
    }
}

// The body of a packet by its kind, whose least bytes are there.
fn body_of(p: &[u8], kind: SaharaCmd) -> Result<SaharaPacketBody, Refusal>
    requires { 8 + least_body kind ≤ length p.now }
    ensures { result ≡ body_of p.now kind }
{
    match kind {
        SaharaCmd::Hello => {
            let h = hello(p)?;
            Ok(SaharaPacketBody::HelloReq(HelloReq {
                ver: h.ver,
                compatible: h.compatible,
                max_len: h.status,
                mode: h.mode,
                unk: h.unk,
            }))
        }
        SaharaCmd::HelloResp => Ok(SaharaPacketBody::HelloResp(hello(p)?)),
        SaharaCmd::ReadData => Ok(SaharaPacketBody::ReadReq(ReadReq {
            image: read(p, 8),
            offset: read(p, 12),
            len: read(p, 16),
        })),
        SaharaCmd::EndOfImage => Ok(SaharaPacketBody::Eoi(Eoi {
            image: read(p, 8),
            status: read(p, 12),
        })),
        SaharaCmd::Done => Ok(SaharaPacketBody::DoneReq),
        SaharaCmd::DoneResp => Ok(SaharaPacketBody::DoneResp(DoneResp { status: read(p, 8) })),
        SaharaCmd::ResetResp => Ok(SaharaPacketBody::ResetResp),
        SaharaCmd::CommandReady => Ok(SaharaPacketBody::CommandReady),
        SaharaCmd::ExecuteResp => Ok(SaharaPacketBody::ExecResp(ExecResp {
            command: SaharaCmdModeCmd::try_from(read::<u32>(p, 8))?,
            len: read(p, 12),
        })),
        SaharaCmd::ExecuteData => Ok(SaharaPacketBody::ExecData(ExecData {
            command: SaharaCmdModeCmd::try_from(read::<u32>(p, 8))?,
        })),
        SaharaCmd::MemDebug => Ok(SaharaPacketBody::DebugReq(DebugReq {
            addr: read(p, 8),
            len: read(p, 12),
        })),
        SaharaCmd::MemRead => Ok(SaharaPacketBody::ReadMemReq(ReadMemReq {
            addr: read(p, 8),
            len: read(p, 12),
        })),
        SaharaCmd::MemDebug64 => Ok(SaharaPacketBody::Debug64Req(Debug64Req {
            addr: read(p, 8),
            len: read(p, 16),
        })),
        SaharaCmd::MemRead64 => Ok(SaharaPacketBody::ReadMem64Req(ReadMem64Req {
            addr: read(p, 8),
            len: read(p, 16),
        })),
        SaharaCmd::ReadData64 => Ok(SaharaPacketBody::ReadData64Req(ReadData64Req {
            image: read(p, 8),
            offset: read(p, 16),
            len: read(p, 24),
        })),
    }
}

// The same, malformed where it is short.
#[tactic(auto, unfolding(crate::specs::Packet::kind_of))]
fn kind_of(p: &[u8], kind: SaharaCmd) -> Result<SaharaPacketBody, Refusal>
    ensures { result ≡ kind_of p.now kind }
{
    if p.len() < 8 + least_body(kind) {
        return Err(Refusal::Body);
    }
    body_of(p, kind)
}

// Decodes a packet from any bytes.
#[tactic(auto, unfolding(crate::specs::Packet::decode_of))]
pub fn sahara_parse_packet(p: &[u8]) -> Result<SaharaPacket, Refusal>
    ensures { Tells decoded_told result (decode_of p.now) }
{
    if p.len() < 8 {
        return Err(Refusal::Body);
    }
    match Class::from(read::<u32>(p, 0)) {
        Class::Kind(kind) => {
            let body = kind_of(p, kind)?;
            let len = read(p, 4);
            Ok(SaharaPacket { len, body })
        }
        Class::Xml => Err(Refusal::Xml),
        Class::Unimplemented => Err(Refusal::NotImplemented),
        Class::Unknown => Err(Refusal::Unknown),
    }
}

// The length rule of `sahara_read_packet`.
pub fn sahara_read_packet_length(len: u32) -> Result<(), Refusal>
    ensures { Tells length_told result (length_checked len) }
{
    if len < 8 {
        return Err(Refusal::PacketLength);
    }
    if 4096 < len {
        return Err(Refusal::PacketLength);
    }
    Ok(())
}
