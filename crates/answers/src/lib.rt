// Answers in the paper's numbers, for whoever tells them: on the wire, or to C.
#![tactic(auto)]

ghost use Rattle.std.specs.Prelude.{◌≡◌};
ghost use Rattle.rules.specs.Answers.{refusal_numbers, answer_numbers};
ghost use Rattle.answers.specs.Numbered.{told};

use rules::{Answer, Refusal};

// A number and two values, as an answer has them.
#[derive(Clone, Copy)]
pub struct Told {
    pub no: u64,
    pub one: u64,
    pub two: u64,
}

// The paper's number of a refusal, with zeros, except 7, which has its count.
impl From<Refusal> for Told {
    ghost from_gives = { λ r t. t ≡ told (refusal_numbers r) };

    #[tactic(auto, unfolding(rules::specs::Answers::refusal_numbers))]
    fn from(r: Refusal) -> Told {
        let (no, two) = match r {
            Refusal::BadOpening => (1, 0),
            Refusal::AlreadyOpened => (2, 0),
            Refusal::Unopened => (3, 0),
            Refusal::OtherLength => (4, 0),
            Refusal::NotSound => (5, 0),
            Refusal::BadLayout => (6, 0),
            Refusal::NoRoom { holes } => (7, holes),
            Refusal::BadSpan => (8, 0),
            Refusal::PastArena => (9, 0),
            Refusal::BadStretch => (10, 0),
        };
        Told { no, one: 0, two }
    }
}

// The number and the two values of what a call answers: 0 if it was accepted, or its refusal's.
impl From<Result<Answer, Refusal>> for Told {
    ghost from_gives = { λ a t. t ≡ told (answer_numbers a) };

    #[tactic(auto, unfolding(rules::specs::Answers::answer_numbers))]
    fn from(a: Result<Answer, Refusal>) -> Told {
        let (one, two) = match a {
            Ok(Answer::Opened { bottom, size }) => (bottom.0, size),
            Ok(Answer::Allocated { addr, count }) => (addr.0, count),
            Ok(Answer::Freed { rounded, used }) => (rounded, used),
            Ok(Answer::Resized { rounded, used }) => (rounded, used),
            Ok(Answer::Extended { size, pending }) => (size, pending),
            Ok(Answer::Listed { holes, free }) => (holes, free),
            Ok(Answer::Room { largest, holes }) => (largest, holes),
            Err(r) => return Told::from(r),
        };
        Told { no: 0, one, two }
    }
}
