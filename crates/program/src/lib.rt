// What both programs do with their output and with what stops them: text to a writer, and a line on standard error.
#![tactic(auto)]

ghost use Rattle.std.specs.Io.KnownBytes.{Appends};
ghost use Rattle.std.specs.Prelude.{◌≡◌, ◌≤◌, length, take, true};

use std::io;
use std::io::Write;

// The reads that a program makes, at most. A proved loop has to end, and nothing says that the input does: no run uses up so many.
pub const READS: u64 = 18446744073709551615;

// Writes the first characters of the output's memory; says whether that went well, and on standard error what did not.
pub fn write_text<W: Write>(rt: &impl Eprint, output: &mut W, out: &[u8], filled: usize) -> bool
    ensures within { result ≡ true → filled ≤ length out.now }
    ensures written { result ≡ true → Appends (W.contents output.old) (W.contents output.new) (take filled out.now) }
{
    if out.len() < filled {
        say(rt, "write: no memory for the answers");
        return false;
    }
    match output.write_all(&out[..filled]) {
        Ok(()) => true,
        Err(e) => {
            say_failed(rt, "write", e);
            false
        }
    }
}

// Says that a read failed, and why.
pub fn say_unread(rt: &impl Eprint, why: io::Error) {
    say_failed(rt, "read", why);
}

// Says that the output's memory has no room for an answer.
pub fn say_full(rt: &impl Eprint) {
    say(rt, "write: no memory for an answer");
}

// Says that the input outlasts the reads.
pub fn say_endless(rt: &impl Eprint) {
    say(rt, "read: the input does not end");
}

// Says what failed, and why.
fn say_failed(rt: &impl Eprint, what: &str, why: io::Error) {
    let _ = eprintln!(rt; "{what}: {why}");
}

// Writes a line on standard error. Where that fails too, there is nowhere left to say it.
fn say(rt: &impl Eprint, text: &str) {
    let _ = eprintln!(rt; "{text}");
}
