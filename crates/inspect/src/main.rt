// Answers questions about types, values and profiles: each line of standard input is a question, each line of standard output its answer. A
// read or a write that fails is said on standard error, no more answers are written, and the exit status is 1.
#![tactic(auto)]

use ask_room::{LONGEST, TABLE_ROOM};
use program::READS;
use questions::LINE_ROOM;
use std::io::{Read, Write};
use std::process::ExitCode;

// The characters of one read, at most.
const BLOCK: usize = 65536;

// The characters that answers are gathered to, at least, before they are written.
const GATHERED: usize = 65536;

// That the program stops: a read or a write failed, memory has no room, or the input outlasts the reads. Standard error says which.
#[derive(Clone, Copy)]
struct Stopped;

fn main(rt: HostRuntime) -> ExitCode {
    let mut block = [0u8; BLOCK];
    let mut line = [0u8; LINE_ROOM];
    let mut out = [0u8; LONGEST + GATHERED];
    let mut table = [0u64; TABLE_ROOM];
    let mut input = rt.stdin();
    let mut output = rt.stdout();
    let answered = answer_all(
        &rt,
        &mut input,
        &mut output,
        &mut block,
        &mut line,
        &mut out,
        &mut table,
    );
    match answered {
        Ok(()) => ExitCode::SUCCESS,
        Err(Stopped) => ExitCode::FAILURE,
    }
}

// Answers all questions of the input, in lent memory.
fn answer_all<R: Read, W: Write>(
    rt: &impl Eprint,
    input: &mut R,
    output: &mut W,
    block: &mut [u8],
    line: &mut [u8],
    out: &mut [u8],
    table: &mut [u64],
) -> Result<(), Stopped> {
    let kept = read_all(rt, input, output, block, line, out, table)?;
    end_line(rt, output, line, out, table, kept)
}

// Reads the input to its end, and writes the answer of every line that ends in an LF; says how many characters it keeps of the line begun.
fn read_all<R: Read, W: Write>(
    rt: &impl Eprint,
    input: &mut R,
    output: &mut W,
    block: &mut [u8],
    line: &mut [u8],
    out: &mut [u8],
    table: &mut [u64],
) -> Result<usize, Stopped> {
    let mut kept = 0;
    for _ in 0..READS {
        let n = input.read(block).map_err(|why| {
            program::say_unread(rt, why);
            Stopped
        })?;
        if n == 0 {
            return Ok(kept);
        }
        kept = take_block(rt, output, &block[..n], line, out, table, kept)?;
    }
    program::say_endless(rt);
    Err(Stopped)
}

// Writes the answers of the lines that end in a block, as many at a time as there is memory for; says how many characters
// it keeps of the line begun.
fn take_block<W: Write>(
    rt: &impl Eprint,
    output: &mut W,
    block: &[u8],
    line: &mut [u8],
    out: &mut [u8],
    table: &mut [u64],
    before: usize,
) -> Result<usize, Stopped> {
    let mut kept = before;
    let mut from = 0;
    // No `for`: each call says how far it came.
    while from < block.len() {
        let done = questions::answer_block(block, from, line, out, table, kept);
        if done.next <= from {
            program::say_full(rt);
            return Err(Stopped);
        }
        if !program::write_text(rt, output, out, done.filled) {
            return Err(Stopped);
        }
        kept = done.kept;
        from = done.next;
    }
    Ok(kept)
}

// Answers the line that was begun, if one was, as an LF would end it.
fn end_line<W: Write>(
    rt: &impl Eprint,
    output: &mut W,
    line: &mut [u8],
    out: &mut [u8],
    table: &mut [u64],
    kept: usize,
) -> Result<(), Stopped> {
    if kept == 0 {
        return Ok(());
    }
    take_block(rt, output, b"\n", line, out, table, kept)?;
    Ok(())
}
