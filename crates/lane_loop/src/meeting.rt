//! A program of labels that counts its evaluations, and in which two of them may meet.

use graph_core::Fragment;
use message_buffer::Hand;
use pie_core::{Local, Pie};
use pie_flood::Labels;
use std::sync::atomic::{AtomicBool, AtomicU64, Ordering};
use std::thread::yield_now;
use value_order::Order;

/// For how many turns PEval of fragment 0 waits at most.
const PATIENCE: u32 = 10_000_000;

/// What the evaluations of a run leave behind.
#[derive(Drop)]
pub(crate) struct Meeting {
    /// How often PEval and IncEval were called.
    pub(crate) pevals: AtomicU64,
    pub(crate) incevals: AtomicU64,
    /// PEval of fragment 1 was entered.
    entered: AtomicBool,
    /// PEval of fragment 0 saw that before it evaluated.
    pub(crate) met: AtomicBool,
}

impl Meeting {
    pub(crate) fn new() -> Meeting {
        Meeting {
            pevals: AtomicU64::new(0),
            incevals: AtomicU64::new(0),
            entered: AtomicBool::new(false),
            met: AtomicBool::new(false),
        }
    }

    /// PEval of this fragment begins.
    fn enter(&self, fragment: u32) {
        self.pevals.fetch_add(1, Ordering::SeqCst);
        match fragment {
            0 => self.met.store(self.wait(), Ordering::SeqCst),
            1 => self.entered.store(true, Ordering::SeqCst),
            _ => {}
        }
    }

    /// Whether PEval of fragment 1 is entered in time.
    fn wait(&self) -> bool {
        for _ in 0..PATIENCE {
            if self.entered.load(Ordering::SeqCst) {
                return true;
            }
            yield_now();
        }
        false
    }
}

/// The program of labels, whose evaluations are seen.
#[derive(Drop)]
pub(crate) struct Watched<'a> {
    labels: Labels,
    meeting: &'a Meeting,
}

impl<'a> Watched<'a> {
    pub(crate) fn new(meeting: &'a Meeting) -> Watched<'a> {
        Watched {
            labels: Labels::new(),
            meeting,
        }
    }
}

impl<'a> Pie for Watched<'a> {
    ghost use Rattle.std.proofs.Common.{refl};
    ghost use Rattle.graph_core.specs.Queries.{equations_of};
    ghost use Rattle.graph_core.proofs.Lawful.{lawful as lawful_equations};
    ghost use Rattle.pie_flood.specs.FloodJobs.{IsLabelJob};

    ghost is_for = { λ watched job. IsLabelJob job };

    ghost equations = { λ watched job. equations_of job };

    ghost counters_for = { λ job. 0 };

    ghost of_query = { λ watched job h. refl };

    ghost lawful = { λ watched job h. lawful_equations job.graph job.query h.0.graph };

    fn order(&self) -> Order {
        self.labels.order()
    }

    fn counters(&self) -> u32 {
        self.labels.counters()
    }

    fn peval(&self, part: &Fragment, local: &mut Local) {
        self.meeting.enter(part.number());
        self.labels.peval(part, local);
    }

    fn inceval(&self, part: &Fragment, local: &mut Local, hand: &Hand) {
        self.meeting.incevals.fetch_add(1, Ordering::SeqCst);
        self.labels.inceval(part, local, hand);
    }
}
