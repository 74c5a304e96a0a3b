// Why a call is refused, and what C is told of an outcome. What each refusal means is said in specs/Reply.antt.
ghost use Rattle.std.specs.Prelude.{◌≡◌};
ghost use Rattle.aes.specs.Refusal.{reply};

// The causes, by their reply numbers.
#[derive(Clone, Copy, Debug, PartialEq, Eq)]
pub enum Refusal {
    KeyLength = 1,
    ScheduleLength = 2,
    InputLength = 3,
    OutputLength = 4,
    MasksLength = 5,
    OffsetRange = 6,
    FormUnknown = 7,
    RecordLength = 8,
    NoLogarithm = 9,
    PowerRange = 10,
    SheetLength = 11,
    MarkWrong = 12,
    VersionUnknown = 13,
    OffsetsLength = 14,
    StepWrong = 15,
    KeyDataLength = 16,
    WrappedLength = 17,
    Integrity = 18,
    PacketLength = 19,
    SyncLost = 20,
    FieldWrong = 21,
    PipesWrong = 22,
    BitsWrong = 23,
    OffsetPerByte = 24,
    PartyFull = 25,
    BankFull = 26,
    NotLoaded = 27,
    PartyUnknown = 28,
}

// The reply to C: the number of a refusal, and 0 for a call that is done.
pub fn reply(outcome: Result<(), Refusal>) -> u8
    ensures { result ≡ reply outcome }
{
    match outcome {
        Ok(()) => 0,
        Err(refusal) => refusal as u8,
    }
}
