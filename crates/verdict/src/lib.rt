// What a whole packet asks of the host, by its kind; what a session is opened with.
#![tactic(auto)]

ghost use Rattle.std.specs.Prelude.{◌≡◌, eqb};
ghost use Rattle.base.specs.Choice.{pick};
ghost use Rattle.refusal.specs.Refusal.{accepted};
ghost use Rattle.image.specs.Image.{range_unjudged};
ghost use Rattle.verdict.specs.Backend.{backend_number, backend_named};
ghost use Rattle.verdict.specs.Verdict.{
  finish_number,
  exactly,
  image_for,
  end_for,
  done_for,
  execute_for,
  response_for,
  table_for,
};

use build::Request;
use command::{SaharaCmdModeCmd, SaharaMode};
use field::{Width, padded};
use image::{ImageId, image_range_unjudged};
use refusal::Refusal;

#[derive(Clone, Copy, Debug, PartialEq, Eq)]
pub enum QdlBackend {
    Serial,
    Usb,
}

// A number is no backend's.
#[derive(Clone, Copy, Debug, PartialEq, Eq)]
pub struct NoBackend;

impl From<QdlBackend> for u32 {
    ghost from_gives = { λ backend n. n ≡ backend_number backend };

    fn from(backend: QdlBackend) -> u32 {
        match backend {
            QdlBackend::Serial => 0,
            QdlBackend::Usb => 1,
        }
    }
}

impl TryFrom<u32> for QdlBackend {
    type Error = NoBackend;

    ghost try_from_gives = { λ n r. r ≡ backend_named n };

    fn try_from(n: u32) -> Result<QdlBackend, NoBackend> {
        match n {
            0 => Ok(QdlBackend::Serial),
            1 => Ok(QdlBackend::Usb),
            _ => Err(NoBackend),
        }
    }
}

// How a session finishes: the device has its images, it resets itself, its memory is dumped, its reply is there.
#[derive(Clone, Copy, Debug, PartialEq, Eq)]
pub enum Finish {
    ImagesSent,
    Reset,
    Dumped,
    Reply,
}

impl From<Finish> for u8 {
    ghost from_gives = { λ how n. n ≡ finish_number how };

    fn from(how: Finish) -> u8 {
        match how {
            Finish::ImagesSent => 1,
            Finish::Reset => 2,
            Finish::Dumped => 3,
            Finish::Reply => 4,
        }
    }
}

// What a session is opened with.
#[derive(Clone, Copy)]
pub struct Opening {
    pub mode: SaharaMode,
    // to be executed, or none
    pub command: Option<SaharaCmdModeCmd>,
    pub backend: QdlBackend,
}

// What a packet that is not refused asks for.
#[derive(Clone, Copy)]
pub enum Verdict {
    // a packet to send
    Reply(Request),
    // bytes of the image set: start and length
    Image(usize, usize),
    // nothing
    Pass,
    // the end
    Finish(Finish),
    // a response of so many bytes to this command is to come
    Respond(SaharaCmdModeCmd, usize),
    // the table, of this width, stands at this address and has so many bytes
    Debug(Width, u64, u64),
}

// A packet's length field is exactly so much.
fn exactly(len: u32, n: u32) -> Result<(), Refusal>
    ensures { result ≡ pick (eqb len n) accepted (Err Refusal.KindLength) }
{
    if len == n {
        Ok(())
    } else {
        Err(Refusal::KindLength)
    }
}

// A hello is answered with the session's mode.
pub fn on_hello(mode: SaharaMode, len: u32) -> Result<Verdict, Refusal>
    ensures { result ≡ exactly len 48 (Ok (Verdict.Reply (Request.HelloResp mode))) }
{
    exactly(len, 48)?;
    Ok(Verdict::Reply(Request::HelloResp(mode)))
}

// A read of either width, whose packet is to be `exact` bytes long. The set is not judged: a step has checked it before.
pub fn on_read(
    set: &[u8],
    len: u32,
    exact: u32,
    image: u64,
    offset: u64,
    count: u64,
) -> Result<Verdict, Refusal>
    ensures { result ≡ exactly len exact (image_for (range_unjudged set.now image offset count)) }
{
    exactly(len, exact)?;
    let (start, k) = image_range_unjudged(set, ImageId(image), offset, count)?;
    Ok(Verdict::Image(start, k))
}

pub fn on_eoi(len: u32, status: u32) -> Result<Verdict, Refusal>
    ensures { result ≡ exactly len 16 (end_for status) }
{
    exactly(len, 16)?;
    if status != 0 {
        return Err(Refusal::ImageStatus);
    }
    Ok(Verdict::Reply(Request::Done))
}

pub fn on_done_resp(set: &[u8], status: u32) -> Result<Verdict, Refusal>
    ensures { result ≡ done_for set.now status }
{
    if status == 1 || padded::<u32>(set, 0) == 1 {
        Ok(Verdict::Finish(Finish::ImagesSent))
    } else {
        Ok(Verdict::Pass)
    }
}

pub fn on_reset_resp(len: u32) -> Result<Verdict, Refusal>
    ensures { result ≡ exactly len 8 (Ok (Verdict.Finish Finish.Reset)) }
{
    exactly(len, 8)?;
    Ok(Verdict::Finish(Finish::Reset))
}

pub fn on_command_ready(command: Option<SaharaCmdModeCmd>, len: u32) -> Result<Verdict, Refusal>
    ensures { result ≡ exactly len 8 (execute_for command) }
{
    exactly(len, 8)?;
    let c = command.ok_or(Refusal::NoCommand)?;
    Ok(Verdict::Reply(Request::Execute(c)))
}

pub fn on_exec_resp(rsize: usize, command: SaharaCmdModeCmd, count: u32) -> Result<Verdict, Refusal>
    ensures { result ≡ response_for rsize command count }
{
    let k = count as usize;
    if rsize < k {
        return Err(Refusal::ResponseLength);
    }
    Ok(Verdict::Respond(command, k))
}

// A memory debug of either width, whose packet is to be `exact` bytes long.
pub fn on_debug(
    tsize: usize,
    width: Width,
    len: u32,
    exact: u32,
    addr: u64,
    count: u64,
) -> Result<Verdict, Refusal>
    ensures { result ≡ exactly len exact (table_for tsize width addr count) }
{
    exactly(len, exact)?;
    if 65536 < count || tsize < count as usize {
        return Err(Refusal::TableLength);
    }
    Ok(Verdict::Debug(width, addr, count))
}
