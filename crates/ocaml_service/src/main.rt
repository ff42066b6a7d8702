//! The program: over standard input and standard output, a session, or with the word `--lsp` a language server.
//! It is built on `service_run` and on the typer, makes the real ends and the counter, and ends with the exit status that `served`
//! gives.
#![tactic(auto)]

mod tally;

use service_run::served;
use session_loop::{ReadEnd, WriteEnd};
use std::process::ExitCode;
use std::{env, io};
use tally::Tally;
use text_analysis::Typer;

fn main(rt: HostRuntime) -> ExitCode {
    let alloc = rt.alloc();
    let words = match env::args(&rt) {
        Ok(words) => words,
        Err(e) if e.kind() == io::ErrorKind::OutOfMemory => return ExitCode::from(6),
        Err(_) => return ExitCode::from(2),
    };
    let Ok(words): Result<Vec<String>, _> = words.skip(1).collect(alloc) else {
        return ExitCode::from(6);
    };
    let mut src = ReadEnd::new(rt.stdin());
    let mut sink = WriteEnd::new(rt.stdout());
    let mut counts = Tally::new();
    let code = served::<Typer, _, _, _>(alloc, &words, &mut src, &mut sink, &mut counts);
    ExitCode::from(code)
}
