// The text of what a message's header says, each with its LF, written into lent memory where it fits.
#![tactic(auto)]

ghost use Rattle.cdr_write.specs.Write.{Stored};
ghost use Rattle.header.specs.Header.{header_answer};
ghost use Rattle.ask_header_text.specs.Texts.{number_text, part_text, target_text, request_text, reply_header_text, refusal_text, header_answer_text};
ghost use Rattle.ask_header_text.specs.Inner.{Puts};

use cdr_fields::Extent;
use header::{MessageHeader, ReplyHeader, RequestHeader};
use header_parts::{Refusal, TargetAddress};

// The characters of the longest text, a request's: seven numbers of at most 20 digits and a character behind each, three parts of the message,
// two digits an octet and at most two characters more, and 21 characters of words.
const LONGEST: usize = cdr::OCTETS_LIMIT * 6 + 174;

const SPACE: u8 = b' ';

const COLON: u8 = b':';

const LF: u8 = b'\n';

// Writes the text of what a message's header says from `at` on, or of its refusal; or nothing where it does not fit.
pub fn write_header(out: &mut [u8], at: usize, message: &[u8]) -> Option<usize>
    ensures { Stored out.old at (header_answer_text (header_answer message.now) message.now) result out.new }
{
    let mut text = [0u8; LONGEST];
    let end = put_answer(&mut text, message);
    cdr_write::write_octets(out, at, &text[..end])
}

// Puts what a message's header says, or its refusal.
fn put_answer(out: &mut [u8], message: &[u8]) -> usize
    ensures { Puts out.old 0 (header_answer_text (header_answer message.now) message.now) result out.new }
{
    match header::read(message) {
        Ok(MessageHeader::Called(request)) => put_request(out, request, message),
        Ok(MessageHeader::Answered(reply)) => put_reply(out, reply),
        Err(refusal) => put_refusal(out, refusal),
    }
}

// Puts `ok request MINOR ID RESPONSE TARGET OPERATION PRINCIPAL CONTEXTS BODY`.
fn put_request(out: &mut [u8], request: RequestHeader, message: &[u8]) -> usize
    ensures { Puts out.old 0 (request_text request message.now) result out.new }
{
    let first = put_word(out, 0, b"ok request ");
    let versed = put_number(out, first, u64::from(request.minor), SPACE);
    let identified = put_number(out, versed, request.id, SPACE);
    let responded = put_number(out, identified, request.response, SPACE);
    let addressed = put_target(out, responded, request.target, message);
    let named = put_part(out, addressed, request.operation, message, SPACE);
    let last = put_part(out, named, request.principal, message, SPACE);
    let counted = put_number(out, last, request.contexts.count, SPACE);
    put_number(out, counted, request.body as u64, LF)
}

// Puts `ok reply MINOR ID STATUS CONTEXTS BODY`.
fn put_reply(out: &mut [u8], reply: ReplyHeader) -> usize
    ensures { Puts out.old 0 (reply_header_text reply) result out.new }
{
    let first = put_word(out, 0, b"ok reply ");
    let versed = put_number(out, first, u64::from(reply.minor), SPACE);
    let identified = put_number(out, versed, reply.id, SPACE);
    let last = put_number(out, identified, reply.status, SPACE);
    let counted = put_number(out, last, reply.contexts.count, SPACE);
    put_number(out, counted, reply.body as u64, LF)
}

// Puts `no N`.
fn put_refusal(out: &mut [u8], refusal: Refusal) -> usize
    ensures { Puts out.old 0 (refusal_text refusal) result out.new }
{
    let first = put_word(out, 0, b"no ");
    put_number(out, first, u64::from(refusal.number()), LF)
}

// Puts a target, a space behind it.
fn put_target(out: &mut [u8], at: usize, target: TargetAddress, message: &[u8]) -> usize
    ensures { Puts out.old at (target_text target message.now) result out.new }
{
    match target {
        TargetAddress::Key(octets) => {
            let next = put_word(out, at, b"key:");
            put_part(out, next, octets, message, SPACE)
        }
        TargetAddress::Profile { tag, octets } => {
            let next = put_word(out, at, b"profile:");
            let tagged = put_number(out, next, tag, COLON);
            put_part(out, tagged, octets, message, SPACE)
        }
        TargetAddress::Reference {
            index,
            id,
            profiles,
        } => {
            let next = put_word(out, at, b"reference:");
            let chosen = put_number(out, next, index, COLON);
            let typed = put_part(out, chosen, id, message, COLON);
            put_number(out, typed, profiles.count, SPACE)
        }
    }
}

// Puts a word.
fn put_word(out: &mut [u8], at: usize, word: &[u8]) -> usize
    ensures { Puts out.old at word.now result out.new }
{
    cdr_write::write_octets(out, at, word).unwrap_or(at)
}

// Puts a number and the character behind it.
fn put_number(out: &mut [u8], at: usize, x: u64, behind: u8) -> usize
    ensures { Puts out.old at (number_text x behind) result out.new }
{
    decimals::write_decimal(out, at, x, behind).unwrap_or(at)
}

// Puts octets of the message, and the character behind them.
fn put_part(out: &mut [u8], at: usize, part: Extent, message: &[u8], behind: u8) -> usize
    ensures { Puts out.old at (part_text part behind message.now) result out.new }
{
    let octets = cdr_fields::octets_in(message, part);
    ask_text::write_octets(out, at, b"", octets, behind).unwrap_or(at)
}
