ghost use Rattle.std.specs.Prelude.{IsTrue};

/// Where the threads of a run are held up and watched: it is asked before each job, and told of each call.
pub trait Gate: Sync {
    /// Whether the worker goes on with the job that it holds.
    fn start(&self, worker: u32, job: u64) -> bool;

    /// A call of the node is about to be made, under its lock.
    fn inside(&self, node: u16, pass: u32);

    /// A call of the node was made, and its lock is let go.
    fn answered(&self, node: u16, pass: u32);
}

/// A gate that lets all pass.
#[derive(Clone, Copy)]
pub struct NoGate;

impl Gate for NoGate {
    fn start(&self, _worker: u32, _job: u64) -> bool
        ensures { IsTrue result }
    {
        true
    }

    fn inside(&self, _node: u16, _pass: u32) {}

    fn answered(&self, _node: u16, _pass: u32) {}
}
