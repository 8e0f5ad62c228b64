// The phases of readers and of the writer, each by the step that comes next. An area keeps them as numbers: where one
// phase alone matters its number is compared, and where any may stand it is turned into a phase.
ghost use Rattle.area.specs.Phases.{IsReaderPhase, IsWriterPhase};

// What a reader does next.
#[derive(Clone, Copy, Debug, PartialEq, Eq)]
pub enum ReaderPhase {
    Idle,
    Compares,
    Unbinds,
    Binds,
    Takes,
    Copies,
}

// What the writer does next.
#[derive(Clone, Copy, Debug, PartialEq, Eq)]
pub enum WriterPhase {
    Idle,
    Looks,
    Fills,
    Sizes,
    ClearsStart,
    ClearsEnd,
    Publishes,
    Freezes,
}

// A number that is no phase.
#[derive(Clone, Copy, Debug, PartialEq, Eq)]
pub struct UnknownPhase(pub u64);

impl TryFrom<u64> for ReaderPhase {
    type Error = UnknownPhase;

    ghost try_from_gives = { IsReaderPhase };

    fn try_from(number: u64) -> Result<Self, UnknownPhase> {
        match number {
            0 => Ok(ReaderPhase::Idle),
            1 => Ok(ReaderPhase::Compares),
            2 => Ok(ReaderPhase::Unbinds),
            3 => Ok(ReaderPhase::Binds),
            4 => Ok(ReaderPhase::Takes),
            5 => Ok(ReaderPhase::Copies),
            _ => Err(UnknownPhase(number)),
        }
    }
}

impl TryFrom<u64> for WriterPhase {
    type Error = UnknownPhase;

    ghost try_from_gives = { IsWriterPhase };

    fn try_from(number: u64) -> Result<Self, UnknownPhase> {
        match number {
            0 => Ok(WriterPhase::Idle),
            1 => Ok(WriterPhase::Looks),
            2 => Ok(WriterPhase::Fills),
            3 => Ok(WriterPhase::Sizes),
            4 => Ok(WriterPhase::ClearsStart),
            5 => Ok(WriterPhase::ClearsEnd),
            6 => Ok(WriterPhase::Publishes),
            7 => Ok(WriterPhase::Freezes),
            _ => Err(UnknownPhase(number)),
        }
    }
}
