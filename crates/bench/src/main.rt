// Times a scan of a kernel symbol list for names: `bench LIST NAME...`. What the list says goes to the standard output, the time to the standard error.
#![tactic(auto)]

ghost use Rattle.std.specs.Prelude.{◌≡◌, IfOk};
ghost use Rattle.kallsyms.specs.Cut.{lines_from};
ghost use Rattle.kallsyms.specs.Line.{count_of};

use kallsyms::text::Text;
use lookup::indexed::asked;
use lookup::names::Names;
use lookup::scan::look_up;
use std::process::ExitCode;
use std::time::{Duration, Instant};
use std::{env, fs, io};

const RUNS: u32 = 15;

// How long one scan takes, and how many lines it read.
fn timed<N: Names>(rt: &HostRuntime, bytes: &[u8], names: &mut N) -> io::Result<(Duration, u64)>
    ensures { IfOk result (λ t. t.1 ≡ count_of (lines_from 1 bytes.now)) }
{
    let start = Instant::now(rt)?;
    let reading = look_up(&mut Text::new(bytes), names);
    Ok((start.elapsed(rt)?, reading.lines))
}

// The shortest of several scans, and how many lines each read.
fn best<N: Names>(rt: &HostRuntime, bytes: &[u8], names: &mut N) -> io::Result<(Duration, u64)>
    ensures { IfOk result (λ t. t.1 ≡ count_of (lines_from 1 bytes.now)) }
{
    let (mut shortest, mut lines) = timed(rt, bytes, names)?;
    for _ in 1..RUNS {
        let (took, read) = timed(rt, bytes, names)?;
        shortest = shortest.min(took);
        lines = read;
    }
    Ok((shortest, lines))
}

fn main(rt: HostRuntime) -> io::Result<ExitCode> {
    let words: Vec<String> = env::args(&rt)?.collect(rt.alloc())?;
    // The words are taken apart here as in the tool: a crate for the command line of two programs would be no plainer.
    let (list, names) = match words.as_slice() {
        [_, list, names @ ..] if !names.is_empty() => (list, names),
        _ => {
            eprintln!(rt; "usage: bench LIST NAME...")?;
            return Ok(ExitCode::FAILURE);
        }
    };
    let bytes = fs::read(&rt, list.as_str())?;
    // What the tool takes too, made once: each scan leaves every name unlisted first.
    let mut rows = asked(rt.alloc(), names)?;
    let (shortest, lines) = best(&rt, &bytes, &mut rows)?;
    let micros = shortest.as_micros();
    eprintln!(rt; "best of {RUNS}: {micros} us")?;
    println!(rt; "{lines} lines")?;
    Ok(ExitCode::SUCCESS)
}
