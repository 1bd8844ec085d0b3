// Why a call is refused, a case for each number of document 01's check table and of the requests after it, with the place of a faulty word or byte.
#![tactic(auto)]

#[derive(Clone, Copy)]
pub enum Refusal {
    NoWord,
    TooManyWords,
    KindZero(usize),
    NotPlain(usize),
    OperandZero(usize),
    OperandNotEarlier(usize),
    LetterOutOfRange(usize),
    FieldNotZero(usize),
    Repeated(usize),
    Unused(usize),
    TooManyFixpoints(usize),
    ResultTooShort,
    NoSample,
    TooManySamples,
    LoopStartOutside,
    ScratchTooShort,
    TallyFull,
    NotWords,
    NotGrammar(usize),
    TextTooLong,
    LetterNotDriven(usize),
    TooManyDriven,
    CountDiffers,
    HeaderWrong,
    LimitsOutside,
    DeskOutside,
    DrivenCountsDiffer,
    NotDeltaTwo,
    StateOutside,
}

// The number of a refusal, and the place of the faulty word or byte, 0 where it has none.
#[derive(Clone, Copy)]
pub struct Report(pub u32, pub usize);
