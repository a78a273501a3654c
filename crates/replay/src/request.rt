// What a request asks for, by its code.
ghost use Rattle.replay.specs.Codes.{Decodes};

#[derive(Clone, Copy, PartialEq, Eq)]
pub(crate) enum Request {
    JudgeSpecies,
    JudgePair,
    LeastHistory,
    JudgeOffer,
    Date,
    WriteImage,
    LoadImage,
    AskCollector,
}

// A number that is no code.
#[derive(Clone, Copy, PartialEq, Eq)]
pub(crate) struct NoCode(pub u64);

impl TryFrom<u64> for Request {
    type Error = NoCode;

    ghost try_from_gives = { Decodes };

    fn try_from(code: u64) -> Result<Request, NoCode> {
        match code {
            1 => Ok(Request::JudgeSpecies),
            2 => Ok(Request::JudgePair),
            3 => Ok(Request::LeastHistory),
            4 => Ok(Request::JudgeOffer),
            5 => Ok(Request::Date),
            6 => Ok(Request::WriteImage),
            7 => Ok(Request::LoadImage),
            8 => Ok(Request::AskCollector),
            _ => Err(NoCode(code)),
        }
    }
}
