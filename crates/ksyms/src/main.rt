// Says where names stand in a kernel symbol list.
#![tactic(auto)]

mod answer;
mod request;
mod summary;

use crate::answer::answer;
use crate::request::Request;
use std::process::ExitCode;
use std::{env, fs, io};

// Writes what the command line asks for, or why it is not answered.
fn run(rt: &HostRuntime) -> io::Result<ExitCode> {
    let heap = rt.alloc();
    let words: Vec<String> = match env::args(rt) {
        Ok(words) => words.collect(heap)?,
        Err(error) => {
            eprintln!(rt; "ksyms: cannot read the command line: {error}")?;
            return Ok(ExitCode::FAILURE);
        }
    };
    let Some(request) = Request::of(&words) else {
        eprintln!(rt; "usage: ksyms LIST NAME...")?;
        return Ok(ExitCode::FAILURE);
    };
    let bytes = match fs::read(rt, request.list) {
        Ok(bytes) => bytes,
        Err(error) => {
            eprintln!(rt; "ksyms: cannot read {}: {error}", request.list)?;
            return Ok(ExitCode::FAILURE);
        }
    };
    rt.print(answer(heap, &bytes, request.names)?)?;
    Ok(ExitCode::SUCCESS)
}

fn main(rt: HostRuntime) -> ExitCode {
    match run(&rt) {
        Ok(code) => code,
        Err(error) => {
            let _ = eprintln!(rt; "ksyms: {error}");
            ExitCode::FAILURE
        }
    }
}
