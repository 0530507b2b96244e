// Why an input is refused: the requirement's refusals with their numbers.
#![tactic(auto)]

ghost use Rattle.std.specs.Prelude.{◌≡◌};
ghost use Rattle.refusal.specs.Refusal.{refusal_number};

// In the order of their numbers.
#[derive(Clone, Copy, Debug, PartialEq, Eq)]
pub enum Refusal {
    ImageSet,
    NameList,
    OutBuffer,
    Ended,
    PacketLength,
    Unknown,
    Xml,
    NotImplemented,
    Body,
    HostPacket,
    KindLength,
    NoImage,
    ImageEnd,
    ImageStatus,
    NoCommand,
    ResponseLength,
    TableLength,
    Limit,
    FilenameEnd,
    Filename,
    FilenameBytes,
    RegionEnd,
    Closed,
    RegionEnd32,
    SheetPage,
    ForecastNames,
    ForecastSum,
    TidySet,
    TidyRoom,
}

impl From<Refusal> for u8 {
    ghost from_gives = { λ why n. n ≡ refusal_number why };

    fn from(why: Refusal) -> u8 {
        match why {
            Refusal::ImageSet => 1,
            Refusal::NameList => 2,
            Refusal::OutBuffer => 3,
            Refusal::Ended => 4,
            Refusal::PacketLength => 5,
            Refusal::Unknown => 6,
            Refusal::Xml => 7,
            Refusal::NotImplemented => 8,
            Refusal::Body => 9,
            Refusal::HostPacket => 10,
            Refusal::KindLength => 11,
            Refusal::NoImage => 12,
            Refusal::ImageEnd => 13,
            Refusal::ImageStatus => 14,
            Refusal::NoCommand => 15,
            Refusal::ResponseLength => 16,
            Refusal::TableLength => 17,
            Refusal::Limit => 18,
            Refusal::FilenameEnd => 19,
            Refusal::Filename => 20,
            Refusal::FilenameBytes => 21,
            Refusal::RegionEnd => 22,
            Refusal::Closed => 23,
            Refusal::RegionEnd32 => 24,
            Refusal::SheetPage => 25,
            Refusal::ForecastNames => 26,
            Refusal::ForecastSum => 27,
            Refusal::TidySet => 28,
            Refusal::TidyRoom => 29,
        }
    }
}
