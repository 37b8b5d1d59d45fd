// What rewriting a value is, and the round trip: definitions and theorems. There is no code here but the answer.
#![tactic(auto)]

ghost use Rattle.std.specs.Prelude.{◌≡◌};
ghost use Rattle.rewrite_meaning.specs.Rewriting.{rewrite_number, written_count};

// What rewriting a value answers: octets written; or 01's number of the refusal.
#[derive(Clone, Copy)]
pub enum RewriteAnswer {
    Accepted(usize),
    Refused(u32),
}

impl RewriteAnswer {
    // 01's number of the answer, 0 where the value is written.
    pub fn number(self) -> u32
        ensures { result ≡ rewrite_number self }
    {
        match self {
            RewriteAnswer::Accepted(_) => 0,
            RewriteAnswer::Refused(number) => number,
        }
    }

    // The number of octets written, or what was there where none are.
    pub fn count(self, before: u64) -> u64
        ensures { result ≡ written_count self before }
    {
        match self {
            RewriteAnswer::Accepted(n) => n as u64,
            RewriteAnswer::Refused(_) => before,
        }
    }
}
