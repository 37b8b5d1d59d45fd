// The lines of a recording that is read in blocks: a line of any length is taken in the memory of one lent buffer.
#![tactic(auto)]

ghost use Rattle.std.specs.Prelude.{◌≡◌, ◌+◌, ◌≤◌, min, length, drop};
ghost use Rattle.lines.specs.Lines.{up_to_lf, has_lf, LineTaken};
ghost use Rattle.lines.specs.Inner.{SameLF};

const LF: u8 = 10;

// The characters that are judged together while the LF is sought.
const RUN: usize = 64;

// Where reading a line stands: the next character of the block, the characters of the line kept so far, and whether the
// line's LF was met.
#[derive(Clone, Copy)]
pub struct Taken {
    pub next: usize,
    pub kept: usize,
    pub ended: bool,
}

// Takes characters of `block` from `from` on, up to and with the first LF or up to the block's end; keeps those that fit
// in `line` after the `kept` ones it has. A `from` beyond the block counts as its end, a `kept` beyond the buffer as its
// length.
pub fn take_line(block: &[u8], from: usize, line: &mut [u8], kept: usize) -> Taken
    ensures { LineTaken block.now from line.old kept result line.new }
{
    let end = block.len();
    let size = line.len();
    let start = from.min(end);
    let held = kept.min(size);
    let stop = find_lf(block, start);
    let next = (stop + 1).min(end);
    let count = (stop - start).min(size - held);
    cdr_write::write_octets(line, held, &block[start..start + count]);
    Taken {
        next,
        kept: held + count,
        ended: stop < end,
    }
}

// The place of the first LF from `from` on, or the block's end.
fn find_lf(block: &[u8], from: usize) -> usize
    requires { from ≤ length block.now }
    ensures { result ≡ from + length (up_to_lf (drop from block.now)) }
{
    let start = past_runs(block, from);
    for i in start..block.len() {
        if block[i] == LF {
            return i;
        }
    }
    block.len()
}

// Passes over runs of characters that have no LF among them: from there on, the search comes to the same place.
fn past_runs(block: &[u8], from: usize) -> usize
    requires { from ≤ length block.now }
    ensures { SameLF block.now from result }
{
    let mut i = from;
    // No `for`: it stops within a run, and where it stands is the answer.
    while RUN <= block.len() - i {
        if has_lf(&block[i..i + RUN]) {
            return i;
        }
        i += RUN;
    }
    i
}

// Whether there is an LF. No early end.
fn has_lf(characters: &[u8]) -> bool
    ensures { result ≡ has_lf characters.now }
{
    let mut met = false;
    for c in characters {
        met |= *c == LF;
    }
    met
}
