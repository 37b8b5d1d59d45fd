// Whether a graph of at most 64 kinds has a loop: Warshall's closure, in place, on rows of bits.
#![tactic(auto)]

ghost use Rattle.std.specs.Prelude.{◌≡◌, min, ◌≤◌, ◌<◌, length};
ghost use Rattle.type_loops.specs.Loops.{loop_found, bit_at, cell, row_with, with_step};
ghost use Rattle.type_numbers.specs.{kinds_limit};
ghost use Rattle.type_loops.specs.Inner.{through_row, RoundDone, Closed, some_returns};

use type_numbers::KINDS_LIMIT;

// The steps of a graph: bit j of row i says that there is one from kind i to kind j.
#[derive(Clone, Copy)]
pub struct Steps {
    pub rows: [u64; KINDS_LIMIT],
}

// Puts a step from kind i to kind j into rows of steps; they stay as they are where there is no row i or no bit j.
#[tactic(auto, unfolding(crate::specs::Loops::with_step))]
pub fn add_step(rows: &mut [u64], i: usize, j: usize)
    ensures { rows.new ≡ with_step rows.old i j }
{
    if i < rows.len() && j < KINDS_LIMIT {
        rows[i] = with_bit(rows[i], j);
    }
}

// Whether some kind below n, or below 64 where n is more, returns to itself in one or more steps.
pub fn has_loop(steps: Steps, n: usize) -> bool
    ensures { result ≡ loop_found (min n kinds_limit) (cell steps.rows) }
{
    let n = n.min(KINDS_LIMIT);
    some_returns(closed(steps, n), n)
}

// Whether some kind below n has a step to itself.
fn some_returns(steps: Steps, n: usize) -> bool
    requires { n ≤ kinds_limit }
    ensures { result ≡ some_returns n steps.rows }
{
    (0..n).any(|i| has_bit(steps.rows[i], i))
}

// From each kind below n a step to every kind that it leads to through kinds below n.
fn closed(steps: Steps, n: usize) -> Steps
    requires { n ≤ kinds_limit }
    ensures { Closed n n steps.rows result.rows }
{
    let mut rows = steps.rows;
    for k in 0..n {
        close_round(&mut rows, n, k);
    }
    Steps { rows }
}

// The round for kind k: each kind below n that steps to k steps to where k steps.
fn close_round(rows: &mut [u64; KINDS_LIMIT], n: usize, k: usize)
    requires { (n ≤ kinds_limit) × (k < n) × (length rows.old ≡ kinds_limit) }
    ensures { RoundDone n k rows.old rows.new }
{
    let onward = rows[k];
    for i in 0..n {
        rows[i] = through_row(rows[i], k, onward);
    }
}

// A row after the round for kind k, whose own row is `onward`.
#[tactic(auto, unfolding(crate::specs::Inner::through_row))]
fn through_row(row: u64, k: usize, onward: u64) -> u64
    requires { k < kinds_limit }
    ensures { result ≡ through_row row k onward }
{
    if has_bit(row, k) { row | onward } else { row }
}

// Whether bit j of a row is set.
#[tactic(auto, using(crate::proofs::RowBits::bit_shifted))]
fn has_bit(row: u64, j: usize) -> bool
    requires { j < kinds_limit }
    ensures { result ≡ bit_at row j }
{
    (row >> j) & 1 == 1
}

// A row with bit j set.
fn with_bit(row: u64, j: usize) -> u64
    requires { j < kinds_limit }
    ensures { result ≡ row_with row j }
{
    row | (1 << j)
}
