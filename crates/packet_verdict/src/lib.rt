// The verdict on a packet's bytes: decoded, then what its kind asks for.
#![tactic(auto)]

ghost use Rattle.std.specs.Prelude.{◌≡◌};
ghost use Rattle.base.specs.Told.{Tells};
ghost use Rattle.verdict.specs.Verdict.{on_body, verdict_of, verdict_told};

use field::Width;
use packet::{SaharaPacketBody, sahara_parse_packet};
use refusal::Refusal;
use verdict::{
    Opening, Verdict, on_command_ready, on_debug, on_done_resp, on_eoi, on_exec_resp, on_hello,
    on_read, on_reset_resp,
};

// The verdict by the kind; `len` is the packet's length field.
fn on_body(
    o: Opening,
    set: &[u8],
    tsize: usize,
    rsize: usize,
    len: u32,
    body: SaharaPacketBody,
) -> Result<Verdict, Refusal>
    ensures { result ≡ on_body o set.now tsize rsize len body }
{
    match body {
        SaharaPacketBody::HelloReq(_) => on_hello(o.mode, len),
        SaharaPacketBody::ReadReq(b) => {
            on_read(set, len, 20, b.image as u64, b.offset as u64, b.len as u64)
        }
        SaharaPacketBody::Eoi(b) => on_eoi(len, b.status),
        SaharaPacketBody::DoneResp(b) => on_done_resp(set, b.status),
        SaharaPacketBody::ResetResp => on_reset_resp(len),
        SaharaPacketBody::CommandReady => on_command_ready(o.command, len),
        SaharaPacketBody::ExecResp(b) => on_exec_resp(rsize, b.command, b.len),
        SaharaPacketBody::DebugReq(b) => on_debug(
            tsize,
            Width::Bits32,
            len,
            16,
            b.addr as u64,
            b.len as u64,
        ),
        SaharaPacketBody::Debug64Req(b) => on_debug(tsize, Width::Bits64, len, 24, b.addr, b.len),
        SaharaPacketBody::ReadData64Req(b) => on_read(set, len, 32, b.image, b.offset, b.len),
        SaharaPacketBody::HelloResp(_)
        | SaharaPacketBody::DoneReq
        | SaharaPacketBody::ExecData(_)
        | SaharaPacketBody::ReadMemReq(_)
        | SaharaPacketBody::ReadMem64Req(_) => Err(Refusal::HostPacket),
    }
}

// The verdict on a packet's bytes.
#[tactic(auto, unfolding(verdict::specs::Verdict::verdict_of))]
pub fn judge(
    opening: Opening,
    set: &[u8],
    tsize: usize,
    rsize: usize,
    p: &[u8],
) -> Result<Verdict, Refusal>
    ensures { Tells verdict_told result (verdict_of opening set.now tsize rsize p.now) }
{
    let q = sahara_parse_packet(p)?;
    on_body(opening, set, tsize, rsize, q.len, q.body)
}
