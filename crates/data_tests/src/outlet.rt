//! The log over a stream whose answers are given, and with ample memory.

ghost use Rattle.std.specs.Prelude.{◌≤◌, length, IfOk};

use radio_outlet::{WaitingLines, start_log};
use std::alloc::Global;
use std::io;
use std::io::Write;
use std::sync::{Arc, Mutex, Wait};
use std::thread::Threads;
use std::time::Clock;

/// What a write returns.
#[derive(Clone, Copy)]
enum Answer {
    Takes(usize),
    Fails(i32),
}

/// What its writes return, in this order. After them it takes all.
const ANSWERS: [Answer; 3] = [Answer::Takes(5), Answer::Fails(28), Answer::Takes(9)];

/// A stream that gives these answers, and keeps what it has taken.
#[derive(Drop)]
struct Given<R: Wait + Drop> {
    rt: R,
    calls: usize,
    kept: Arc<Mutex<Vec<u8>>>,
}

impl<R: Wait + Drop> Write for Given<R> {
    fn write(&mut self, bytes: &[u8]) -> io::Result<usize> {
        let call = self.calls;
        self.calls = call.saturating_add(1);
        match ANSWERS.get(call) {
            Some(Answer::Fails(code)) => Err(io::Error::from_raw_os_error(*code)),
            Some(Answer::Takes(count)) => self.keep(bytes, *count),
            None => self.keep(bytes, bytes.len()),
        }
    }

    fn flush(&mut self) -> io::Result<()> {
        Ok(())
    }
}

impl<R: Wait + Drop> Given<R> {
    /// Keeps so many of the bytes at most. Returns how many.
    fn keep(&mut self, bytes: &[u8], most: usize) -> io::Result<usize>
        ensures { IfOk result (λ count. count ≤ length bytes.now) }
    {
        let count = bytes.len().min(most);
        let mut kept = self.kept.lock(&self.rt);
        let vec = &mut *kept;
        vec.extend_from_slice(&bytes[..count])?;
        Ok(count)
    }
}

// A stream that is empty, and what it will have kept.
fn stream_given<R: Wait + Drop>(rt: R, alloc: Global) -> Option<(Given<R>, Arc<Mutex<Vec<u8>>>)> {
    let Ok(kept) = Arc::new(alloc, Mutex::new(Vec::new(alloc))) else {
        return None;
    };
    let Ok(other) = kept.clone() else {
        return None;
    };
    Some((Given { rt, calls: 0, kept }, other))
}

// Whether a line that is torn by a failure is ended, counted as lost, and what follows is written.
fn is_torn_and_told<R>(rt: &R, alloc: Global) -> bool
where
    R: Threads + Wait + Clock + Copy + Drop + Send + 'static,
{
    let Some((stream, kept)) = stream_given(*rt, alloc) else {
        return false;
    };
    let Some(queue) = start_log(rt, alloc, stream, io::sink()) else {
        return false;
    };
    queue.add(rt, b"a b\nc d\ne f\n", 86_400);
    let is_written = queue.wait_written(rt, 10_000);
    let kept = kept.lock(rt);
    is_written && kept.as_slice() == b"a b\nc\ne f\n1970-01-02T00:00:00Z lost lines=1\n".as_slice()
}

// Whether lines wait, as many as there is room for, and the others are counted.
fn is_bounded(alloc: Global) -> bool {
    let mut waiting = WaitingLines::new(alloc);
    let mut added = 0usize;
    for _ in 0..5000 {
        if waiting.add(b"0123456789 abcd\n", 7) {
            added = added.saturating_add(1);
        }
    }
    added == 4096 && waiting.take_lost() == 904 && waiting.take().len() == 65_536
}

// rule: Log failures
// only tested: Log failures: that the thread does so
#[test]
fn a_torn_line(rt: HostRuntime) {
    assert!(rt; is_torn_and_told(&rt, rt.alloc()));
}

// rule: Log queue
#[test]
fn lines_that_wait(rt: HostRuntime) {
    assert!(rt; is_bounded(rt.alloc()));
}
