// The packets that the host sends, built into a lent out buffer.
#![tactic(auto, unfolding(crate::specs::Build::bytes_of, field::specs::Field::fields, field::specs::Field::le_bytes))]

ghost use Rattle.std.specs.Prelude.{◌≡◌, [], ◌∷◌, ◌+◌, ◌≤◌, ◌%◌, ◌^◌};
ghost use Rattle.std.proofs.lemmas.List.Edits.{sets};
ghost use Rattle.field.specs.Field.{le_bytes, words};
ghost use Rattle.base.specs.Told.{Tells};
ghost use Rattle.build.specs.Build.{bytes_of, size_of, read_size, build_of, build_outcome, build_told};

use command::{SaharaCmd, SaharaCmdModeCmd, SaharaMode};
use field::{Number, Width, put};
use refusal::Refusal;

// What is to be sent.
#[derive(Clone, Copy)]
pub enum Request {
    HelloResp(SaharaMode),
    Done,
    Execute(SaharaCmdModeCmd),
    ExecuteData(SaharaCmdModeCmd),
    SwitchMode,
    Reset,
    // address and length
    MemRead(Width, u64, u64),
}

// The least out buffer, whatever the packet.
const LEAST: usize = 48;

// Commands of no decoded kind.
const RESET: u32 = 7;

const SWITCH_MODE: u32 = 0x0c;

const EXECUTE: u32 = 0x0d;

// A number within the out buffer.
#[tactic(auto, unfolding(field::specs::Field::put_at))]
fn store<T: Number>(out: &mut [u8; LEAST], at: usize, v: T)
    requires { at + T.SIZE ≤ 48 }
    ensures { out.new ≡ sets out.old at (le_bytes T.SIZE (T.value v)) }
{
    put(out, at, v).unwrap();
}

// A packet's header.
fn sahara_send_generic(out: &mut [u8; LEAST], cmd: u32, len: u32)
    ensures { out.new ≡ sets out.old 0 (words (cmd ∷ len ∷ [])) }
{
    store(out, 0, cmd);
    store(out, 4, len);
}

// A packet whose body is one word.
fn one_word(out: &mut [u8; LEAST], cmd: u32, v: u32)
    ensures { out.new ≡ sets out.old 0 (words (cmd ∷ 12 ∷ v ∷ [])) }
{
    sahara_send_generic(out, cmd, 12);
    store(out, 8, v);
}

// HelloResp's body: version, compatible, status, mode, six words of 0.
fn hello_body(out: &mut [u8; LEAST], mode: u32)
    ensures { out.new ≡ sets out.old 8 (words (2 ∷ 1 ∷ 0 ∷ mode ∷ 0 ∷ 0 ∷ 0 ∷ 0 ∷ 0 ∷ 0 ∷ [])) }
{
    store(out, 8, 2u32);
    store(out, 12, 1u32);
    store(out, 16, 0u32);
    store(out, 20, mode);
    store(out, 24, 0u64);
    store(out, 32, 0u64);
    store(out, 40, 0u64);
}

// The bytes of a memory read.
pub fn read_size(width: Width) -> usize
    ensures { result ≡ read_size width }
{
    match width {
        Width::Bits32 => 16,
        Width::Bits64 => 24,
    }
}

// What 32 bits hold of a number.
fn low_word(n: u64) -> u32
    ensures { result ≡ n % 256 ^ 4 }
{
    (n % 4294967296) as u32
}

// A memory read's packet.
fn mem_read(out: &mut [u8; LEAST], width: Width, addr: u64, len: u64)
    ensures { out.new ≡ sets out.old 0 (bytes_of (Request.MemRead width addr len)) }
{
    match width {
        Width::Bits32 => {
            sahara_send_generic(out, u32::from(SaharaCmd::MemRead), 16);
            store(out, 8, low_word(addr));
            store(out, 12, low_word(len));
        }
        Width::Bits64 => {
            sahara_send_generic(out, u32::from(SaharaCmd::MemRead64), 24);
            store(out, 8, addr);
            store(out, 16, len);
        }
    }
}

// The packet of a request at the out buffer's front; its size.
fn write_packet(out: &mut [u8; LEAST], request: Request) -> usize
    ensures bytes { out.new ≡ sets out.old 0 (bytes_of request) }
    ensures size { result ≡ size_of request }
{
    match request {
        Request::HelloResp(mode) => {
            sahara_send_generic(out, u32::from(SaharaCmd::HelloResp), 48);
            hello_body(out, u32::from(mode));
            48
        }
        Request::Done => {
            sahara_send_generic(out, u32::from(SaharaCmd::Done), 8);
            8
        }
        Request::Execute(command) => {
            one_word(out, EXECUTE, u32::from(command));
            12
        }
        Request::ExecuteData(command) => {
            one_word(out, u32::from(SaharaCmd::ExecuteData), u32::from(command));
            12
        }
        Request::SwitchMode => {
            one_word(out, SWITCH_MODE, u32::from(SaharaMode::WaitingForImage));
            12
        }
        Request::Reset => {
            sahara_send_generic(out, RESET, 8);
            8
        }
        Request::MemRead(width, addr, len) => {
            mem_read(out, width, addr, len);
            read_size(width)
        }
    }
}

// The packet of a request.
#[tactic(auto, using(crate::proofs::Laws::build_short, crate::proofs::Laws::build_within))]
pub fn build(out: &mut [u8], request: Request) -> Result<usize, Refusal>
    ensures { Tells build_told (build_outcome result out.new) (build_of request out.old) }
{
    let front = out.first_chunk_mut::<LEAST>().ok_or(Refusal::OutBuffer)?;
    Ok(write_packet(front, request))
}

// HelloResp, 48 bytes: the session's mode, whatever the device offered.
pub fn sahara_send_hello_rsp(out: &mut [u8], mode: SaharaMode) -> Result<usize, Refusal>
    ensures { Tells build_told (build_outcome result out.new) (build_of (Request.HelloResp mode) out.old) }
{
    build(out, Request::HelloResp(mode))
}

// Done, 8 bytes.
pub fn sahara_send_done(out: &mut [u8]) -> Result<usize, Refusal>
    ensures { Tells build_told (build_outcome result out.new) (build_of Request.Done out.old) }
{
    build(out, Request::Done)
}

// Execute, 12 bytes.
pub fn sahara_send_cmd_exec(out: &mut [u8], command: SaharaCmdModeCmd) -> Result<usize, Refusal>
    ensures { Tells build_told (build_outcome result out.new) (build_of (Request.Execute command) out.old) }
{
    build(out, Request::Execute(command))
}

// ExecuteData, 12 bytes.
pub fn sahara_send_cmd_data(out: &mut [u8], command: SaharaCmdModeCmd) -> Result<usize, Refusal>
    ensures { Tells build_told (build_outcome result out.new) (build_of (Request.ExecuteData command) out.old) }
{
    build(out, Request::ExecuteData(command))
}

// SwitchMode to mode 0, 12 bytes.
pub fn sahara_switch_mode(out: &mut [u8]) -> Result<usize, Refusal>
    ensures { Tells build_told (build_outcome result out.new) (build_of Request.SwitchMode out.old) }
{
    build(out, Request::SwitchMode)
}

// Reset, 8 bytes.
pub fn sahara_reset(out: &mut [u8]) -> Result<usize, Refusal>
    ensures { Tells build_told (build_outcome result out.new) (build_of Request.Reset out.old) }
{
    build(out, Request::Reset)
}

// A memory read of either width. Of 32 bits what passes 2^32 of an address or a length is dropped; what a step sends fits.
pub fn sahara_send_mem_read(
    out: &mut [u8],
    width: Width,
    addr: u64,
    len: u64,
) -> Result<usize, Refusal>
    ensures { Tells build_told (build_outcome result out.new) (build_of (Request.MemRead width addr len) out.old) }
{
    build(out, Request::MemRead(width, addr, len))
}
