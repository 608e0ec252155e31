//! Where jobs are handed out, and where workers tell what became of them.

ghost use Rattle.std.specs.Prelude.{◌≤◌, IfOk};

use crate::job::Done;
use crossbeam_channel::{Receiver, Sender, bounded};
use lw_stamp::NoMemory;
use std::alloc::Global;
use std::sync::Wait;
use std::sync::atomic::{AtomicU32, Ordering};

/// A board has room for at least so many jobs, so that few are made for lists of different lengths.
const LEAST_ROOM: usize = 64;

/// Two channels with all the room that a list of jobs needs: so no worker waits at them, and no result is lost for want
/// of memory. Both ends of each are here, so that a board can be used again for the next list.
#[derive(Drop)]
pub(crate) struct Board {
    ask: Sender<u64>,
    /// The numbers of the jobs that no worker has taken.
    pub(crate) numbers: Receiver<u64>,
    pub(crate) tell: Sender<Done>,
    told: Receiver<Done>,
    /// How many jobs there is room for.
    room: usize,
    /// The last worker that could not be started. 0 is none, as the first works on the thread that calls.
    pub(crate) unstarted: AtomicU32,
}

impl Board {
    /// A board with room for the jobs, and nothing on it.
    fn new(alloc: Global, jobs: usize) -> Result<Board, NoMemory>
        ensures { IfOk result (λ board. jobs ≤ board.room) }
    {
        let room = jobs.max(LEAST_ROOM);
        let (ask, numbers) = bounded(alloc, room)?;
        let (tell, told) = bounded(alloc, room)?;
        Ok(Board {
            ask,
            numbers,
            tell,
            told,
            room,
            unstarted: AtomicU32::new(0),
        })
    }

    /// The board that was kept, if it has room for the jobs, and else a new one. The numbers of the jobs are put on
    /// it, in order.
    pub(crate) fn ready<R: Wait>(
        rt: &R,
        alloc: Global,
        kept: &mut Option<Board>,
        jobs: usize,
    ) -> Result<Board, NoMemory>
        ensures { IfOk result (λ board. jobs ≤ board.room) }
    {
        let board = match kept.take() {
            Some(board) => board.with_room(alloc, jobs)?,
            None => Board::new(alloc, jobs)?,
        };
        board.unstarted.store(0, Ordering::SeqCst);
        for job in 0..jobs {
            if board.ask.send(rt, job as u64).is_err() {
                return Err(NoMemory);
            }
        }
        Ok(board)
    }

    /// This board, if it has room for the jobs, and else a new one.
    fn with_room(self, alloc: Global, jobs: usize) -> Result<Board, NoMemory>
        ensures { IfOk result (λ board. jobs ≤ board.room) }
    {
        if self.room < jobs {
            return Board::new(alloc, jobs);
        }
        Ok(self)
    }

    /// Adds what was told of the jobs to the list, as it came. The board is kept where nothing is left on it.
    pub(crate) fn results<R: Wait>(
        self,
        rt: &R,
        kept: &mut Option<Board>,
        jobs: usize,
        mut dones: Vec<Done>,
    ) -> Result<Vec<Done>, NoMemory> {
        for _job in 0..jobs {
            let Ok(done) = self.told.try_recv(rt) else {
                return Ok(dones);
            };
            dones.push(done)?;
        }
        *kept = Some(self);
        Ok(dones)
    }
}
