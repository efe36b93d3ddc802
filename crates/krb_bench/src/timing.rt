// The time that work took, and how a figure is printed.

use std::io;
use std::time::{CpuClock, Duration};

/// The seconds of this program's processor time since it stood at `start`: what else the machine does counts little.
pub fn seconds_since<R: CpuClock>(rt: &R, start: Duration) -> io::Result<f64> {
    let now = rt.process_cpu_time()?;
    Ok(now.saturating_sub(start).as_secs_f64())
}

/// Prints the millions of bytes a second of `turns` turns on `length` bytes each.
pub fn print_speed<R: Print>(
    rt: &R,
    name: &str,
    length: u32,
    turns: u32,
    seconds: f64,
) -> io::Result<()> {
    let speed = f64::from(length) * f64::from(turns) / seconds / 1.0e6;
    println!(rt; "{name} {length} bytes: {speed:.1} MB/s")
}

/// Prints the microseconds of each of `turns` turns.
pub fn print_time<R: Print>(rt: &R, name: &str, turns: u32, seconds: f64) -> io::Result<()> {
    let micros = seconds / f64::from(turns) * 1.0e6;
    println!(rt; "{name}: {micros:.3} microseconds")
}

/// Prints how many of `turns` rows went by in a second.
pub fn print_rate<R: Print>(rt: &R, name: &str, turns: u32, seconds: f64) -> io::Result<()> {
    let rate = f64::from(turns) / seconds;
    println!(rt; "{name}: {rate:.0} rows/s")
}
