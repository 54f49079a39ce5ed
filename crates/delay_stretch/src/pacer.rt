use std::marker::Send;

/// Adds turns to the stretches of workers, so that whoever runs an engine can bring about another order of its events.
pub trait Pacer: Drop {
    /// How many turns are added to a stretch of this worker. `waiting` says for how many mirrors a value waits. Any
    /// number may come, of which the engine adds 64 at most.
    fn extra(&mut self, worker: u32, waiting: u32) -> u32;
}

impl Pacer for Box<dyn Pacer + Send> {
    fn extra(&mut self, worker: u32, waiting: u32) -> u32 {
        (**self).extra(worker, waiting)
    }
}
