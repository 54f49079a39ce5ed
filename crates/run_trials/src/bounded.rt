//! How many Takes a run has at most.

ghost use Rattle.std.specs.Prelude.{◌≡◌};
ghost use Rattle.graph_core.specs.Graphs.{IsJob};
ghost use Rattle.graph_core.specs.Fragments.{fragments_of};

use crate::entering::entered;
use crate::inputs::{border, chain, cycle, job_of, labelled, query_table, star};
use crate::pacers::seeds;
use coordinator::{Ran, run_alone, shape_of};
use fragment_cut::fragment;
use grape_event::{Event, Journal};
use grape_port::NoMemory;
use graph_core::{Fragment, Job, Query};
use graph_text::TextFault;
use std::alloc::Global;
use std::process::Abort;
use std::test::Fail;
use value_order::{Order, height};

/// The journal of a run of the job, with a pacer for each worker.
fn journal_of(alloc: Global, job: &Job, fragments: &[Fragment]) -> Result<Journal, NoMemory>
    requires job { IsJob job.now }
    requires fragments { fragments.now ≡ fragments_of job.now }
{
    let shape = shape_of(alloc, job, fragments)?;
    let (entry, mut disk) = entered(alloc, job, &shape)?;
    let pacers = seeds(alloc, 64)?;
    match run_alone(alloc, job, fragments, &shape, entry, &mut disk, pacers) {
        Ran::Done {
            locals: _locals,
            story,
        } => Ok(story.journal),
        Ran::Stopped { .. } | Ran::NoMemory => Err(NoMemory),
    }
}

fn takes_in(journal: &Journal) -> u64 {
    let mut takes = 0u64;
    for place in 0..journal.len() {
        if let Some(Event::Take { .. }) = journal.get(place) {
            takes = takes.saturating_add(1);
        }
    }
    takes
}

/// How often the owned vertices of a fragment can send, over all their routes.
fn sends_at_most(rt: &impl Abort, job: &Job, part: &Fragment) -> u64
    requires { IsJob job.now }
{
    let order = match &job.query {
        Query::Dist(_) | Query::Label | Query::Reach(_) => Order::Least,
        Query::Sim(_) => Order::Mask,
    };
    let mut sends = 0u64;
    for (place, vertex) in part.owned().iter().enumerate() {
        assert!(rt; place < 1000 && *vertex < job.graph.count());
        let start = job.start_of(*vertex);
        let routes = part.routes(place as u32).len() as u64;
        sends = sends.saturating_add(height(order, start).saturating_mul(routes));
    }
    sends
}

/// Two Takes for each fragment, and one for each message.
fn takes_at_most(rt: &impl Abort, job: &Job, fragments: &[Fragment]) -> u64
    requires { IsJob job.now }
{
    let mut takes = 0u64;
    for part in fragments {
        let sends = sends_at_most(rt, job, part);
        takes = takes.saturating_add(sends).saturating_add(2);
    }
    takes
}

fn settings_table() -> [&'static str; 8] {
    [
        "fragments 1\ncut range\n",
        "fragments 1\ncut hash\n",
        "fragments 2\ncut range\n",
        "fragments 2\ncut hash\n",
        "fragments 3\ncut range\n",
        "fragments 3\ncut hash\n",
        "fragments 64\ncut range\n",
        "fragments 64\ncut hash\n",
    ]
}

/// Stops where a run on these lines has too many Takes, or fewer than fragments.
fn check_takes(rt: &impl Abort, alloc: Global, lines: &str) -> Result<(), TextFault> {
    for settings in settings_table() {
        for query in query_table() {
            let job = job_of(alloc, settings, query, lines)?;
            let parts = fragment(alloc, &job)?;
            let takes = takes_in(&journal_of(alloc, &job, &parts)?);
            assert!(rt; takes <= takes_at_most(rt, &job, &parts));
            assert!(rt; takes >= u64::from(job.settings.fragments));
        }
    }
    Ok(())
}

#[test]
fn takes_are_bounded(rt: HostRuntime) -> Result<(), Fail> {
    let alloc = rt.alloc();
    check_takes(&rt, alloc, labelled(alloc, chain(alloc, 9)?, 9)?.as_str())?;
    check_takes(&rt, alloc, labelled(alloc, star(alloc, 9)?, 8)?.as_str())?;
    check_takes(&rt, alloc, labelled(alloc, cycle(alloc, 9)?, 9)?.as_str())?;
    check_takes(&rt, alloc, labelled(alloc, border(alloc, 5)?, 9)?.as_str())?;
    Ok(())
}
