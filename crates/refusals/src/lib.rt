// What a call answers: accepted, or refused with a number (document 01, "Refusal numbers", and the requests of 02 that add one).

#![tactic(auto)]

ghost use Rattle.std.specs.Prelude.{◌≡◌};
ghost use Rattle.refusals.specs.Numbers.{refusal_number, answer_number};

// Why a call is refused; specs/Numbers.antt has the number of each.
#[derive(Clone, Copy, Debug, PartialEq, Eq)]
pub enum Refusal {
    FieldShape,
    FieldRange,
    NotFinite,
    BodyRange,
    NotUnit,
    StepOneRange,
    SheetLength,
    SheetValue,
    SheetDegree,
    NotDoodson,
    NoSuchLine,
    RecordCount,
    RecordValue,
    SelectionValue,
    PoleOffset,
    TwinLines,
    FileForm,
    TwinPlaces,
    FileRange,
    NoSuchSystem,
    ShortOutput,
}

// A refusal's number.
impl From<Refusal> for u32 {
    ghost from_gives = { λ why number. number ≡ refusal_number why };

    fn from(why: Refusal) -> u32 {
        match why {
            Refusal::FieldShape => 1,
            Refusal::FieldRange => 2,
            Refusal::NotFinite => 3,
            Refusal::BodyRange => 4,
            Refusal::NotUnit => 5,
            Refusal::StepOneRange => 6,
            Refusal::SheetLength => 7,
            Refusal::SheetValue => 8,
            Refusal::SheetDegree => 9,
            Refusal::NotDoodson => 10,
            Refusal::NoSuchLine => 11,
            Refusal::RecordCount => 12,
            Refusal::RecordValue => 13,
            Refusal::SelectionValue => 14,
            Refusal::PoleOffset => 15,
            Refusal::TwinLines => 16,
            Refusal::FileForm => 17,
            Refusal::TwinPlaces => 18,
            Refusal::FileRange => 19,
            Refusal::NoSuchSystem => 20,
            Refusal::ShortOutput => 21,
        }
    }
}

// An answer's number, 0 where the call is accepted.
pub fn answer_number(answer: Result<(), Refusal>) -> u32
    ensures { result ≡ answer_number answer }
{
    match answer {
        Ok(()) => 0,
        Err(why) => u32::from(why),
    }
}
