//! Times how a script is read, for `bench/script/run.sh`.
//!
//! With the path of a script it reads the file and then the script, and prints `read`, the processor time of the second in nanoseconds, the
//! system's part included, and how many lines do something. Without a path it does nothing, so that a run of all programs is short.
//! Below stands `iq_script`; nothing stands above.
#![tactic(auto)]

use iq_script::{MOST_BYTES, read_any_script};
use std::time::{CpuClock, Duration};
use std::{env, fs, io};

/// The time between two moments in nanoseconds.
fn nanoseconds(from: Duration, to: Duration) -> u64 {
    let spent = to.saturating_sub(from);
    let whole = spent.as_secs().saturating_mul(1_000_000_000);
    whole.saturating_add(u64::from(spent.subsec_nanos()))
}

fn main(rt: HostRuntime) -> io::Result<()> {
    let mut words = env::args(&rt)?;
    let _program = words.next();
    let Some(path) = words.next() else {
        return Ok(());
    };
    let bytes = fs::read(&rt, path.as_str())?;
    if bytes.len() > MOST_BYTES {
        return Err(io::ErrorKind::FileTooLarge.into());
    }
    let start = rt.thread_cpu_time()?;
    let Ok(script) = read_any_script(rt.alloc(), &bytes) else {
        return Err(io::ErrorKind::InvalidData.into());
    };
    let end = rt.thread_cpu_time()?;
    println!(&rt; "read {} ({})", nanoseconds(start, end), script.lines.len())
}
