// The questions `profile OCTETS` and `component OCTETS NUMBER`.
ghost use Rattle.std.specs.Prelude.{◌≤◌, length};
ghost use Rattle.ask_words.specs.Words.{words};
ghost use Rattle.ask_words.specs.Fields.{numbered_fields_of};
ghost use Rattle.ask_octets.specs.Octets.{line_most};
ghost use Rattle.ask_answers.specs.Questions.{profile_question, component_question};
ghost use Rattle.ask_answers.specs.Inner.{rewritten_most, OctetsHeld};

use ask_octets::MOST;
use ask_text::Reply;

// Answers the word behind `profile`, and leaves the body in the lent memory.
pub(crate) fn reply_profile(rest: &[u8], memory: &mut [u8]) -> Reply
    requires { (length rest.now ≤ line_most) × (rewritten_most ≤ length memory.old) }
    ensures { OctetsHeld (profile_question (words rest.now)) result memory.new }
{
    let mut body = [0u8; MOST];
    let Some(n) = ask_octets::read_lone(rest, &mut body) else {
        return Reply::NoQuestion;
    };
    match profile::read(&body[..n]) {
        Ok(said) => {
            cdr_write::write_octets(memory, 0, &body[..n]);
            Reply::Profiled(said, n)
        }
        Err(refusal) => Reply::Refused(refusal.number()),
    }
}

// Answers the words behind `component`, and leaves the body in the lent memory.
pub(crate) fn reply_component(rest: &[u8], memory: &mut [u8]) -> Reply
    requires { (length rest.now ≤ line_most) × (rewritten_most ≤ length memory.old) }
    ensures { OctetsHeld (component_question (numbered_fields_of (words rest.now))) result memory.new }
{
    let Some((end, number)) = ask_words::read_numbered(rest) else {
        return Reply::NoQuestion;
    };
    let mut body = [0u8; MOST];
    let Some(n) = ask_octets::read(&rest[..end], &mut body) else {
        return Reply::NoQuestion;
    };
    match profile::component(&body[..n], number) {
        Ok((tag, octets)) => {
            cdr_write::write_octets(memory, 0, &body[..n]);
            Reply::Component(tag, octets, n)
        }
        Err(refusal) => Reply::Refused(refusal.number()),
    }
}
