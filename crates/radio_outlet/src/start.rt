//! The start of the thread that writes the log.

use crate::queue::LogQueue;
use crate::writer::LogWriter;
use std::alloc::Global;
use std::io::Write;
use std::sync::{Arc, Wait};
use std::thread;
use std::thread::Threads;
use std::time::Clock;

/// Starts a thread that writes to `stream` what is added to the queue that it returns, and reports the first failed write
/// and the recovery from it as a line on `warnings`. The thread goes on until the stream is closed or the program ends:
/// nobody waits for a write.
///
/// `None` if memory or a thread is refused.
pub fn start_log<R, O, E>(rt: &R, alloc: Global, stream: O, warnings: E) -> Option<Arc<LogQueue>>
where
    R: Threads + Wait + Clock + Copy + Drop + Send + 'static,
    O: Write + Drop + Send + 'static,
    E: Write + Drop + Send + 'static,
{
    let (queue, theirs) = shared_queue(alloc)?;
    let rt_of_thread = *rt;
    let writer = LogWriter::new(alloc, stream, warnings);
    match thread::spawn(rt, move || work(rt_of_thread, theirs, writer)) {
        Ok(_) => Some(queue),
        Err(_) => None,
    }
}

/// Returns an empty queue, for two who share it. `None` if memory is refused.
fn shared_queue(alloc: Global) -> Option<(Arc<LogQueue>, Arc<LogQueue>)> {
    let Ok(queue) = Arc::new(alloc, LogQueue::new(alloc)) else {
        return None;
    };
    match queue.clone() {
        Ok(other) => Some((queue, other)),
        Err(_) => None,
    }
}

/// Writes what is added to this queue.
fn work<R, O, E>(rt: R, queue: Arc<LogQueue>, writer: LogWriter<O, E>)
where
    R: Wait + Clock + Drop,
    O: Write + Drop,
    E: Write + Drop,
{
    let mut writer = writer;
    writer.work(&rt, &queue);
}
