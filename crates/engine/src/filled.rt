//! The two tables of a network, filled, and what is read in them.
ghost use Rattle.std.specs.Prelude.{◌≡◌, ◌+◌, ◌*◌, ◌<◌, ◌≤◌, length, pred, Decides};
ghost use Rattle.amount.specs.Rows.{Within};
ghost use Rattle.network.specs.Networks.{wait_at};
ghost use Rattle.engine.specs.Spans.{entry_span};
ghost use Rattle.engine.specs.Solved.{table_size, Entries};
ghost use Rattle.engine.specs.Tables.{Live};
ghost use Rattle.engine.specs.Filled.{Ready, mark_in, row_in, tables};

use crate::tables::has_walk;
use amount::measure::Measure;
use network::Network;
use std::marker::Model;

/// A network with its two tables, filled. A clause sees the network's graph and what the tables hold.
#[derive(Drop)]
pub(crate) struct Filled<'a, X: Measure, N: Network<X>> {
    net: &'a N,
    // asked of the network once, which may take long to tell it
    events: u32,
    rows: &'a [X],
    marks: &'a [u32],
    ghost counted: { events ≡ (N.graph net.now).events },
}

impl<'a, X: Measure, N: Network<X>> Model for Filled<'a, X, N> {
    ghost use Rattle.engine.specs.Filled.{Tables, tables, Ready};

    ghost Value = { Tables X };

    ghost view = { λ f. tables (N.graph f.net.now) f.rows.now f.marks.now };

    ghost invariant = { λ f. Ready X.scale (tables (N.graph f.net.now) f.rows.now f.marks.now) };
}

impl<'a, X: Measure, N: Network<X>> Filled<'a, X, N> {
    /// These tables, which are filled.
    pub(crate) fn new(net: &'a N, rows: &'a [X], marks: &'a [u32]) -> Self
        requires room { (table_size (N.graph net.now).events ≤ length rows.now) × (table_size (N.graph net.now).events ≤ length marks.now) }
        requires filled { Entries X.scale (N.graph net.now) rows.now marks.now }
        ensures is { result ≡ tables (N.graph net.now) rows.now marks.now }
        ensures ready { Ready X.scale result }
    {
        Filled {
            net,
            events: net.event_count(),
            rows,
            marks,
        }
    }

    /// How many events the network has.
    pub(crate) fn event_count(&self) -> u32
        ensures is { result ≡ self.now.graph.events }
        ensures ready { Ready X.scale self.now }
    {
        self.events
    }

    // The place of the entry for k waits and event v. That it lies inside is asked by each of these: an index has no plainer type.
    fn place(&self, k: u32, v: u32) -> usize
        requires { (k ≤ self.now.graph.events) × (v < self.now.graph.events) }
        ensures { result ≡ k * self.now.graph.events + v }
    {
        k as usize * self.events as usize + v as usize
    }

    // The mark of the entry for k waits and event v.
    fn mark(&self, k: u32, v: u32) -> u32
        requires { (k ≤ self.now.graph.events) × (v < self.now.graph.events) }
        ensures is { result ≡ mark_in self.now k v }
        ensures names { 0 < result → pred result < length self.now.graph.waits }
    {
        let marks = self.marks;
        marks[self.place(k, v)]
    }

    /// Whether that entry has a walk.
    pub(crate) fn has_walk(&self, k: u32, v: u32) -> bool
        requires { (k ≤ self.now.graph.events) × (v < self.now.graph.events) }
        ensures { Decides result (Live k (mark_in self.now k v)) }
    {
        has_walk(k as usize, self.mark(k, v))
    }

    /// Its row.
    pub(crate) fn row(&self, k: u32, v: u32) -> X
        requires { (k ≤ self.now.graph.events) × (v < self.now.graph.events) }
        ensures is { X.scale.row result ≡ row_in X.scale self.now k v }
        ensures near { Within X.scale.places entry_span (X.scale.row result) }
    {
        let rows = self.rows;
        rows[self.place(k, v)]
    }

    /// The wait that its mark names.
    pub(crate) fn last_wait(&self, k: u32, v: u32) -> u32
        requires inside { (k ≤ self.now.graph.events) × (v < self.now.graph.events) }
        requires marked { 0 < mark_in self.now k v }
        ensures is { result ≡ pred (mark_in self.now k v) }
        ensures known { result < length self.now.graph.waits }
    {
        self.mark(k, v) - 1
    }

    /// The event where a wait starts.
    pub(crate) fn start(&self, e: u32) -> u32
        requires { e < length self.now.graph.waits }
        ensures is { result ≡ (wait_at self.now.graph.waits e).start }
        ensures known { result < self.now.graph.events }
    {
        self.net.wait(e).start
    }
}
