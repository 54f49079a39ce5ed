/// What a lane passes outside the lock, between a Take and its evaluation. It promises nothing but its return.
pub trait Gate {
    /// Passes with a Work of this worker.
    fn pass(&self, worker: u32);
}

/// A gate that does nothing.
#[derive(Clone, Copy, Debug)]
pub struct OpenGate;

impl Gate for OpenGate {
    fn pass(&self, _worker: u32) {}
}
