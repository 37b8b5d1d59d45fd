// Reads a recording: standard input is lines of hexadecimal, one message each. The listing goes to standard output: each line's
// number, answer and message, or `-` where it gives none; last `end LINES OPEN`. A read or a write that fails is said on standard error,
// no `end` is written, and the exit status is 1.
#![tactic(auto)]

use join_places::PLACES_SIZE;
use program::READS;
use recording_state::State;
use recording_text::LINE_ROOM;
use std::io::{Read, Write};
use std::process::ExitCode;

// The characters of one read, at most.
const BLOCK: usize = 65536;

// The characters of memory for answers, which are written when no more of the longest fit.
const OUTPUT: usize = 131072;

// That the program stops: a read or a write failed, memory has no room, or the input outlasts the reads. Standard error says which.
#[derive(Clone, Copy)]
struct Stopped;

fn main(rt: HostRuntime) -> ExitCode {
    let mut block = [0u8; BLOCK];
    let mut line = [0u8; LINE_ROOM];
    let mut places = [0u8; PLACES_SIZE];
    let mut out = [0u8; OUTPUT];
    let mut input = rt.stdin();
    let mut output = rt.stdout();
    let listed = list(
        &rt,
        &mut input,
        &mut output,
        &mut block,
        &mut line,
        &mut places,
        &mut out,
    );
    match listed {
        Ok(()) => ExitCode::SUCCESS,
        Err(Stopped) => ExitCode::FAILURE,
    }
}

// Writes the listing of the input.
fn list<R: Read, W: Write>(
    rt: &impl Eprint,
    input: &mut R,
    output: &mut W,
    block: &mut [u8],
    line: &mut [u8],
    places: &mut [u8],
    out: &mut [u8],
) -> Result<(), Stopped> {
    let read = read_all(rt, input, output, block, line, places, out)?;
    let ended = end_line(rt, output, line, places, out, read)?;
    close(rt, output, line, places, out, ended)
}

// Reads the input to its end, and writes the answer of every line that ends in an LF.
fn read_all<R: Read, W: Write>(
    rt: &impl Eprint,
    input: &mut R,
    output: &mut W,
    block: &mut [u8],
    line: &mut [u8],
    places: &mut [u8],
    out: &mut [u8],
) -> Result<State, Stopped> {
    let mut state = State::fresh();
    for _ in 0..READS {
        let n = input.read(block).map_err(|why| {
            program::say_unread(rt, why);
            Stopped
        })?;
        if n == 0 {
            return Ok(state);
        }
        state = take_block(rt, output, &block[..n], line, places, out, state)?;
    }
    program::say_endless(rt);
    Err(Stopped)
}

// Writes the answers of a block, as many at a time as there is memory for.
fn take_block<W: Write>(
    rt: &impl Eprint,
    output: &mut W,
    block: &[u8],
    line: &mut [u8],
    places: &mut [u8],
    out: &mut [u8],
    before: State,
) -> Result<State, Stopped> {
    let mut state = before;
    let mut from = 0;
    // No `for`: each call says how far it came.
    while from < block.len() {
        let done = recording_text::answer_block(block, from, line, places, out, state);
        if done.next <= from {
            program::say_full(rt);
            return Err(Stopped);
        }
        write(rt, output, out, done.filled)?;
        state = done.state;
        from = done.next;
    }
    Ok(state)
}

// Answers the line that was begun, if one was, as an LF would end it.
fn end_line<W: Write>(
    rt: &impl Eprint,
    output: &mut W,
    line: &mut [u8],
    places: &mut [u8],
    out: &mut [u8],
    state: State,
) -> Result<State, Stopped> {
    if state.kept == 0 {
        return Ok(state);
    }
    take_block(rt, output, b"\n", line, places, out, state)
}

// Writes the closing line by itself: it is begun only where all before it was written.
fn close<W: Write>(
    rt: &impl Eprint,
    output: &mut W,
    line: &mut [u8],
    places: &mut [u8],
    out: &mut [u8],
    state: State,
) -> Result<(), Stopped> {
    let Some(end) = recording_text::answer_end(line, places, out, state) else {
        program::say_full(rt);
        return Err(Stopped);
    };
    write(rt, output, out, end)
}

// Writes the first characters of the output's memory.
fn write<W: Write>(
    rt: &impl Eprint,
    output: &mut W,
    out: &[u8],
    filled: usize,
) -> Result<(), Stopped> {
    if program::write_text(rt, output, out, filled) {
        Ok(())
    } else {
        Err(Stopped)
    }
}
