ghost use Rattle.std.specs.Prelude.{◌≡◌};
ghost use Rattle.rule.specs.Answers.{refusal_number};

// Why a call is refused: the rows of the refusal table (document 01, "Refused, by where it is found"; 14, 15 and 16: document 02, requests 5, 8 and 9).
#[derive(Clone, Copy, Debug, PartialEq, Eq)]
pub enum Refusal {
    FlagCount,
    TableLength,
    TableByte,
    OrderPlaces,
    CellsLength,
    Records,
    NodeNumber,
    WorkspaceLength,
    Argument,
    NoRoom,
    FileEnd,
    FileMap,
    FileLabel,
    ForbiddenRow,
    NoSuchRow,
    LogLength,
}

impl Refusal {
    // The number of its row.
    pub fn number(self) -> u8
        ensures { result ≡ refusal_number self }
    {
        match self {
            Refusal::FlagCount => 1,
            Refusal::TableLength => 2,
            Refusal::TableByte => 3,
            Refusal::OrderPlaces => 4,
            Refusal::CellsLength => 5,
            Refusal::Records => 6,
            Refusal::NodeNumber => 7,
            Refusal::WorkspaceLength => 8,
            Refusal::Argument => 9,
            Refusal::NoRoom => 10,
            Refusal::FileEnd => 11,
            Refusal::FileMap => 12,
            Refusal::FileLabel => 13,
            Refusal::ForbiddenRow => 14,
            Refusal::NoSuchRow => 15,
            Refusal::LogLength => 16,
        }
    }
}
