// What stands around the work of a worker on a row.

use std::sync::atomic::AtomicU64;
use std::sync::atomic::Ordering::SeqCst;

/// Called before and after a worker works on a row. It answers nothing and changes nothing that a clause sees:
/// a test stands in it to hold a worker back.
pub trait Gate {
    fn before(&self, worker: u32, row: u32);

    fn after(&self, worker: u32, row: u32);
}

/// A gate that does nothing.
#[derive(Clone, Copy, Debug)]
pub struct OpenGate;

impl Gate for OpenGate {
    fn before(&self, _worker: u32, _row: u32) {}

    fn after(&self, _worker: u32, _row: u32) {}
}

/// How often a held worker looks whether it may go on.
const MOST_TURNS: u64 = 10_000_000;

/// A gate that holds one worker before its rows until other workers have come back from so many, and gives up after
/// ten million turns.
#[derive(Drop)]
pub struct HoldGate {
    held: u32,
    rows: u64,
    back: AtomicU64,
    turns: AtomicU64,
}

impl HoldGate {
    /// Holds this worker until others have come back from so many rows.
    pub fn new(held: u32, rows: u64) -> HoldGate {
        HoldGate {
            held,
            rows,
            back: AtomicU64::new(0),
            turns: AtomicU64::new(0),
        }
    }

    /// Whether the worker was let go without the others.
    pub fn gave_up(&self) -> bool {
        self.turns.load(SeqCst) >= MOST_TURNS
    }

    /// From how many rows the other workers have come back.
    pub fn back(&self) -> u64 {
        self.back.load(SeqCst)
    }

    fn hold(&self) {
        for _ in 0..MOST_TURNS {
            if self.back.load(SeqCst) >= self.rows {
                return;
            }
            self.turns.fetch_add(1, SeqCst);
        }
    }
}

impl Gate for HoldGate {
    fn before(&self, worker: u32, _row: u32) {
        if worker == self.held {
            self.hold();
        }
    }

    fn after(&self, worker: u32, _row: u32) {
        if worker != self.held {
            self.back.fetch_add(1, SeqCst);
        }
    }
}
