//! The two tables filled: the greatest totals of walks of k waits, and the waits that end them.
ghost use Rattle.std.specs.Prelude.{◌≡◌, ℕ, ◌+◌, ◌<◌, ◌≤◌, true, false, T, length, drop, replicate, Decides};
ghost use Rattle.amount.specs.Rows.{zero_row};
ghost use Rattle.engine.specs.Solved.{row_at, table_size, Entries};
ghost use Rattle.engine.specs.Tables.{Live};
ghost use Rattle.engine.specs.Filled.{RowDone};

use amount::measure::Measure;
use network::Network;

// Whether an entry for k waits, with this mark, has a walk. 0 says that there is none: the table is promised as it is.
pub(crate) fn has_walk(k: usize, mark: u32) -> bool
    ensures { Decides result (Live k mark) }
{
    k == 0 || mark > 0
}

// Whether a total replaces the one held with this mark: nothing is held, or less.
fn replaces<X: Measure>(total: X, held: X, mark: u32) -> bool
    ensures { elim result [ true ↦ (0 < mark → ¬ T (X.scale.at_most (X.scale.row total) (X.scale.row held))) | false ↦ (0 < mark) × T (X.scale.at_most (X.scale.row total) (X.scale.row held)) ] }
{
    mark == 0 || total > held
}

// Makes the entries of a row zero, marked 0.
fn clear_row<X: Measure>(rows: &mut [X], marks: &mut [u32])
    ensures rows { (v : ℕ) → row_at X.scale rows.new v ≡ zero_row X.scale.places }
    ensures marks { marks.new ≡ replicate (length marks.old) 0 }
{
    let zero = X::zero();
    // `fill` asks that copying cannot fail, which is not known of every measure
    for row in rows.iter_mut() {
        *row = zero;
    }
    marks.fill(0);
}

// The row for k + 1 waits, from the one for k: every wait is offered to the event where it ends.
fn next_row<X: Measure, N: Network<X>>(
    net: &N,
    k: usize,
    rows: &[X],
    marks: &[u32],
    next_rows: &mut [X],
    next_marks: &mut [u32],
)
    requires few { k < (N.graph net.now).events }
    requires room { (length rows.now ≡ (N.graph net.now).events) × (length marks.now ≡ (N.graph net.now).events) }
    requires next_room { (length next_rows.old ≡ (N.graph net.now).events) × (length next_marks.old ≡ (N.graph net.now).events) }
    requires done { RowDone X.scale (N.graph net.now) k rows.now marks.now }
    ensures { RowDone X.scale (N.graph net.now) (k + 1) next_rows.new next_marks.new }
{
    clear_row(next_rows, next_marks);
    // by number, since that is what an entry is marked with
    for e in 0..net.wait_count() {
        let wait = net.wait(e);
        let start = wait.start as usize;
        let end = wait.end as usize;
        if has_walk(k, marks[start]) {
            let total = rows[start] + wait.amount;
            if replaces(total, next_rows[end], next_marks[end]) {
                next_rows[end] = total;
                next_marks[end] = e + 1;
            }
        }
    }
}

// Fills both tables, whose entry k × n + v is for walks of k waits that end at event v.
pub(crate) fn fill_tables<X: Measure, N: Network<X>>(net: &N, rows: &mut [X], marks: &mut [u32])
    requires { (table_size (N.graph net.now).events ≤ length rows.old) × (table_size (N.graph net.now).events ≤ length marks.old) }
    ensures entries { Entries X.scale (N.graph net.now) rows.new marks.new }
    ensures past_rows { drop (table_size (N.graph net.now).events) rows.new ≡ drop (table_size (N.graph net.now).events) rows.old }
    ensures past_marks { drop (table_size (N.graph net.now).events) marks.new ≡ drop (table_size (N.graph net.now).events) marks.old }
{
    let n = net.event_count() as usize;
    clear_row(&mut rows[..n], &mut marks[..n]);
    // `chunks_exact_mut` would not say afterwards what the rows hold
    for k in 0..n {
        let (rows, next_rows) = rows.split_at_mut((k + 1) * n);
        let (marks, next_marks) = marks.split_at_mut((k + 1) * n);
        next_row(
            net,
            k,
            &rows[k * n..],
            &marks[k * n..],
            &mut next_rows[..n],
            &mut next_marks[..n],
        );
    }
}
