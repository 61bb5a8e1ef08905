// The processor time that a program has used, in microseconds.
use std::io;
use std::time::{CpuClock, Duration};

pub fn clock(rt: &impl CpuClock) -> io::Result<u64> {
    Ok(micros(rt.process_cpu_time()?))
}

// What was used since a reading of the clock.
pub fn since(rt: &impl CpuClock, start: u64) -> io::Result<u64> {
    Ok(clock(rt)?.saturating_sub(start))
}

// What was used while the work ran.
pub fn timed<F: FnOnce()>(rt: &impl CpuClock, work: F) -> io::Result<u64>
    requires { F.pre work }
{
    let start = clock(rt)?;
    work();
    since(rt, start)
}

// Whole microseconds, or the most that fits where there are more.
fn micros(time: Duration) -> u64 {
    u64::try_from(time.as_micros()).unwrap_or(u64::MAX)
}
