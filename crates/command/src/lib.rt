// Modes, commands and packet kinds with their numbers, and the class of a command number.
#![tactic(auto)]

ghost use Rattle.std.specs.Prelude.{◌≡◌};
ghost use Rattle.command.specs.Command.{mode_number, command_number, kind_number, mode_of, command_of, class_of};

use refusal::Refusal;

#[derive(Clone, Copy, Debug, PartialEq, Eq)]
pub enum SaharaMode {
    WaitingForImage,
    ImageTransferComplete,
    MemoryDebug,
    Command,
}

#[derive(Clone, Copy, Debug, PartialEq, Eq)]
pub enum SaharaCmdModeCmd {
    Nop,
    ReadSerialNum,
    ReadHwId,
    ReadOemKeyHash,
}

// The kinds of packet that are decoded.
#[derive(Clone, Copy, Debug, PartialEq, Eq)]
pub enum SaharaCmd {
    Hello,
    HelloResp,
    ReadData,
    EndOfImage,
    Done,
    DoneResp,
    ResetResp,
    MemDebug,
    MemRead,
    CommandReady,
    ExecuteResp,
    ExecuteData,
    MemDebug64,
    MemRead64,
    ReadData64,
}

#[derive(Clone, Copy, Debug, PartialEq, Eq)]
pub enum Class {
    Kind(SaharaCmd),
    Xml,
    Unimplemented,
    Unknown,
}

impl TryFrom<u32> for SaharaMode {
    type Error = Refusal;

    ghost try_from_gives = { λ n r. r ≡ mode_of n };

    #[tactic(auto, unfolding(crate::specs::Command::mode_of))]
    fn try_from(n: u32) -> Result<SaharaMode, Refusal> {
        match n {
            0 => Ok(SaharaMode::WaitingForImage),
            1 => Ok(SaharaMode::ImageTransferComplete),
            2 => Ok(SaharaMode::MemoryDebug),
            3 => Ok(SaharaMode::Command),
            _ => Err(Refusal::Body),
        }
    }
}

impl From<SaharaMode> for u32 {
    ghost from_gives = { λ mode n. n ≡ mode_number mode };

    fn from(mode: SaharaMode) -> u32 {
        match mode {
            SaharaMode::WaitingForImage => 0,
            SaharaMode::ImageTransferComplete => 1,
            SaharaMode::MemoryDebug => 2,
            SaharaMode::Command => 3,
        }
    }
}

impl TryFrom<u32> for SaharaCmdModeCmd {
    type Error = Refusal;

    ghost try_from_gives = { λ n r. r ≡ command_of n };

    #[tactic(auto, unfolding(crate::specs::Command::command_of))]
    fn try_from(n: u32) -> Result<SaharaCmdModeCmd, Refusal> {
        match n {
            0 => Ok(SaharaCmdModeCmd::Nop),
            1 => Ok(SaharaCmdModeCmd::ReadSerialNum),
            2 => Ok(SaharaCmdModeCmd::ReadHwId),
            3 => Ok(SaharaCmdModeCmd::ReadOemKeyHash),
            _ => Err(Refusal::Body),
        }
    }
}

impl From<SaharaCmdModeCmd> for u32 {
    ghost from_gives = { λ command n. n ≡ command_number command };

    fn from(command: SaharaCmdModeCmd) -> u32 {
        match command {
            SaharaCmdModeCmd::Nop => 0,
            SaharaCmdModeCmd::ReadSerialNum => 1,
            SaharaCmdModeCmd::ReadHwId => 2,
            SaharaCmdModeCmd::ReadOemKeyHash => 3,
        }
    }
}

impl From<SaharaCmd> for u32 {
    ghost from_gives = { λ kind n. n ≡ kind_number kind };

    fn from(kind: SaharaCmd) -> u32 {
        match kind {
            SaharaCmd::Hello => 1,
            SaharaCmd::HelloResp => 2,
            SaharaCmd::ReadData => 3,
            SaharaCmd::EndOfImage => 4,
            SaharaCmd::Done => 5,
            SaharaCmd::DoneResp => 6,
            SaharaCmd::ResetResp => 8,
            SaharaCmd::MemDebug => 9,
            SaharaCmd::MemRead => 0x0a,
            SaharaCmd::CommandReady => 0x0b,
            SaharaCmd::ExecuteResp => 0x0e,
            SaharaCmd::ExecuteData => 0x0f,
            SaharaCmd::MemDebug64 => 0x10,
            SaharaCmd::MemRead64 => 0x11,
            SaharaCmd::ReadData64 => 0x12,
        }
    }
}

// The class of a command number.
impl From<u32> for Class {
    ghost from_gives = { λ command class. class ≡ class_of command };

    #[tactic(auto, unfolding(crate::specs::Command::class_of, crate::specs::Command::kinds, crate::specs::Command::unimplemented))]
    fn from(command: u32) -> Class {
        match command {
            1 => Class::Kind(SaharaCmd::Hello),
            2 => Class::Kind(SaharaCmd::HelloResp),
            3 => Class::Kind(SaharaCmd::ReadData),
            4 => Class::Kind(SaharaCmd::EndOfImage),
            5 => Class::Kind(SaharaCmd::Done),
            6 => Class::Kind(SaharaCmd::DoneResp),
            8 => Class::Kind(SaharaCmd::ResetResp),
            9 => Class::Kind(SaharaCmd::MemDebug),
            0x0a => Class::Kind(SaharaCmd::MemRead),
            0x0b => Class::Kind(SaharaCmd::CommandReady),
            0x0e => Class::Kind(SaharaCmd::ExecuteResp),
            0x0f => Class::Kind(SaharaCmd::ExecuteData),
            0x10 => Class::Kind(SaharaCmd::MemDebug64),
            0x11 => Class::Kind(SaharaCmd::MemRead64),
            0x12 => Class::Kind(SaharaCmd::ReadData64),
            0x6d78_3f3c => Class::Xml,
            7 | 0x0c | 0x0d | 0x13 | 0x14 => Class::Unimplemented,
            _ => Class::Unknown,
        }
    }
}
