// The answers to a line of a recording: 0 to 3, and the refusals 10 and 12 to 28.
#![tactic(auto)]

ghost use Rattle.std.specs.Prelude.{◌≡◌};
ghost use Rattle.join_answers.specs.Answers.{join_refusal_number, answer_number, output_in};
ghost use Rattle.join_answers.specs.declared.Refusal.TheVariants.{Frame};

// A refusal: a row of the frame header's table, or a rule of joining.
#[derive(Clone, Copy)]
pub enum Refusal {
    Frame(frame::Refusal),
    IdOpen,
    NoPlaceFree,
    IdNotOpen,
    FirstDiffers,
    TooLong,
    NoRoom,
    BadRecord,
}

impl From<frame::Refusal> for Refusal {
    ghost from_gives = { λ row result. result ≡ Frame row };

    // A row of the frame's table.
    fn from(row: frame::Refusal) -> Refusal {
        Refusal::Frame(row)
    }
}

impl Refusal {
    // The paper's number of the refusal.
    pub fn number(self) -> u32
        ensures { result ≡ join_refusal_number self }
    {
        match self {
            Refusal::Frame(row) => row.number(),
            Refusal::IdOpen => refusals::ID_OPEN,
            Refusal::NoPlaceFree => refusals::NO_PLACE_FREE,
            Refusal::IdNotOpen => refusals::ID_NOT_OPEN,
            Refusal::FirstDiffers => refusals::FIRST_DIFFERS,
            Refusal::TooLong => refusals::JOINED_TOO_LONG,
            Refusal::NoRoom => refusals::NO_ROOM,
            Refusal::BadRecord => refusals::BAD_RECORD,
        }
    }
}

// The answer to a line that is not refused, with the number of octets of the message that it writes.
#[derive(Clone, Copy)]
pub enum Answer {
    Whole(usize),
    Held,
    Joined(usize),
    Cancelled(usize),
}

// The paper's number of the answer or the refusal.
pub fn answer_number(answer: Result<Answer, Refusal>) -> u32
    ensures { result ≡ answer_number answer }
{
    match answer {
        Ok(Answer::Whole(_)) => 0,
        Ok(Answer::Held) => 1,
        Ok(Answer::Joined(_)) => 2,
        Ok(Answer::Cancelled(_)) => 3,
        Err(why) => why.number(),
    }
}

// The octets of the message that is written, where one is.
pub fn output_in(answer: Result<Answer, Refusal>) -> Option<usize>
    ensures { result ≡ output_in answer }
{
    match answer {
        Ok(Answer::Whole(n) | Answer::Joined(n) | Answer::Cancelled(n)) => Some(n),
        Ok(Answer::Held) | Err(_) => None,
    }
}
