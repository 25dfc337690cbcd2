//! `iqmux STORE step`: runs a script of one coordinator from standard input, and prints the replies and the history.
#![tactic(auto)]

use iq_outside::{FileDevice, OpenGate, StdSink, StdSource};
use iq_run::multiplex;
use std::alloc::{AllocError, Global};
use std::process::ExitCode;
use std::rt::Env;
use std::{env, io};

/// The status where memory is wanting before the program's own call begins.
const NO_MEMORY: u8 = 8;

fn main(rt: HostRuntime) -> ExitCode {
    let Ok(words) = words_of(&rt) else {
        return ExitCode::from(NO_MEMORY);
    };
    let Ok(path) = path_of(rt.alloc(), words.as_slice()) else {
        return ExitCode::from(NO_MEMORY);
    };
    let Ok(files) = rt.clone() else {
        return ExitCode::from(NO_MEMORY);
    };
    let ended = multiplex(
        &rt,
        rt.alloc(),
        words.as_slice(),
        &mut StdSource::new(rt.stdin()),
        &mut StdSink::new(rt.stdout()),
        &mut StdSink::new(rt.stderr()),
        FileDevice::new(files, path),
        &OpenGate,
    );
    ExitCode::from(ended.status)
}

/// The words behind the program's name; none where one isn't UTF-8, and so no word of the grammar.
fn words_of<R: Env + AllocGlobal>(rt: &R) -> Result<Vec<String>, AllocError> {
    let mut words = Vec::new(rt.alloc());
    match env::args(rt) {
        Ok(args) => {
            for word in args.skip(1) {
                words.push(word)?;
            }
            Ok(words)
        }
        Err(error) if error.kind() == io::ErrorKind::OutOfMemory => Err(AllocError),
        Err(_) => Ok(words),
    }
}

/// The store's path: the first word.
fn path_of(alloc: Global, words: &[String]) -> Result<String, AllocError> {
    match words.first() {
        None => Ok(String::new(alloc)),
        Some(word) => String::from_str(alloc, word.as_str()),
    }
}
