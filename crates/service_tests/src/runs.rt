//! Runs of `serve` over each kind of end.
use crate::verdict::{none_wrong, wrong_unless};
use session_loop::{
    ListSink, ListSource, ReadEnd, Report, Sink, Source, Status, SureSink, SureSource, WriteEnd,
    serve,
};
use std::alloc::Global;
use std::test::Fail;
use syntax_tree::{Counts, NoMemory};
use text_analysis::Typer;

const TELL: &[u8] = b"{\"query\":\"tell\",\"text\":\"let a = 1\\nlet b = a\"}\n";

const ASK: &[u8] = b"{\"query\":\"type-enclosing\",\"at\":{\"line\":2,\"col\":8}}\n";

const TOLD: &[u8] = b"{\"class\":\"return\",\"value\":19}\n";

const TYPED: &[u8] =
    b"{\"class\":\"return\",\"value\":[{\"end\":{\"col\":9,\"line\":2},\"start\":{\"col\":8,\"line\":2},\"type\":\"int\"}]}\n";

const NOT_JSON: &[u8] = b"{\"class\":\"error\",\"value\":{\"name\":\"NotJson\"}}\n";

const BAD_POSITION: &[u8] =
    b"{\"class\":\"error\",\"value\":{\"key\":\"end\",\"name\":\"BadPosition\"}}\n";

/// A range past the end of the text of `TELL`.
const MISPLACED: &[u8] =
    b"{\"query\":\"tell\",\"start\":{\"line\":1,\"col\":0},\"end\":{\"line\":3,\"col\":0},\"text\":\"\"}\n";

const MADE: &[u8] = b"{\"bytes\":151,\"faults\":0,\"items\":6,\"typed\":1}\n";

/// A counter of its own.
#[derive(Clone, Copy)]
struct Three {
    lexed: u64,
    shifted: u64,
    typed: u64,
}

impl Counts for Three {
    ghost tallies = { λ t. record { lexed = t.lexed; shifted = t.shifted; typed = t.typed } };

    fn add_lexed(&mut self) {
        self.lexed = self.lexed.saturating_add(1);
    }

    fn add_shifted(&mut self) {
        self.shifted = self.shifted.saturating_add(1);
    }

    fn add_typed(&mut self) {
        self.typed = self.typed.saturating_add(1);
    }

    fn lexed(&self) -> u64 {
        self.lexed
    }

    fn shifted(&self) -> u64 {
        self.shifted
    }

    fn typed(&self) -> u64 {
        self.typed
    }
}

fn zero() -> Three {
    Three {
        lexed: 0,
        shifted: 0,
        typed: 0,
    }
}

/// The one call of the tested function.
fn served<S: Source, K: Sink>(
    alloc: Global,
    words: &[String],
    src: &mut S,
    sink: &mut K,
) -> Report {
    serve::<Typer, _, _, _>(alloc, words, src, sink, &mut zero())
}

/// These pieces one after another.
fn joined(alloc: Global, pieces: &[&[u8]]) -> Result<Vec<u8>, NoMemory> {
    let mut bytes = Vec::new(alloc);
    for piece in pieces {
        bytes.extend_from_slice(piece)?;
    }
    Ok(bytes)
}

/// Whether bytes are these pieces one after another.
fn are_joined(bytes: &[u8], pieces: &[&[u8]]) -> bool {
    let mut rest = bytes;
    for piece in pieces {
        match rest.strip_prefix(*piece) {
            Some(left) => rest = left,
            None => return false,
        }
    }
    rest.is_empty()
}

/// A run without words over ends in memory.
struct Run {
    what: &'static str,
    input: &'static [&'static [u8]],
    /// The calls of the source that fail, from 1.
    takes: &'static [u64],
    /// The calls of the sink that fail, from 1, each with how many bytes it puts before.
    puts: &'static [(u64, u32)],
    status: Status,
    lexed: u64,
    output: &'static [&'static [u8]],
}

const RUNS: [Run; 5] = [
    Run {
        what: "a plain text is answered",
        input: &[TELL, ASK],
        takes: &[],
        puts: &[],
        status: Status::Done,
        lexed: 8,
        output: &[TOLD, TYPED],
    },
    Run {
        what: "what is refused leaves the text, and a blank line has no reply",
        input: &[TELL, b"{\n \t\n", MISPLACED, ASK],
        takes: &[],
        puts: &[],
        status: Status::Done,
        lexed: 8,
        output: &[TOLD, NOT_JSON, BAD_POSITION, TYPED],
    },
    Run {
        what: "no input has no output",
        input: &[],
        takes: &[],
        puts: &[],
        status: Status::Done,
        lexed: 0,
        output: &[],
    },
    Run {
        what: "a put that fails leaves a front",
        input: &[TELL, ASK],
        takes: &[],
        puts: &[(2, 3)],
        status: Status::WriteFault,
        lexed: 8,
        output: &[TOLD, b"{\"c"],
    },
    Run {
        what: "a take that fails leaves the lines before it answered",
        input: &[TELL, ASK],
        takes: &[2],
        puts: &[],
        status: Status::ReadFault,
        lexed: 0,
        output: &[TOLD],
    },
];

/// A source that gives at most the length of `TELL` at once.
fn source(alloc: Global, pieces: &[&[u8]], takes: &[u64]) -> Result<ListSource, NoMemory> {
    let input = joined(alloc, pieces)?;
    let takes = takes.to_vec(alloc)?;
    let most = vec![in alloc; TELL.len()]?;
    Ok(ListSource::new(input, takes, most))
}

fn sink(alloc: Global, puts: &[(u64, u32)]) -> Result<ListSink, NoMemory> {
    Ok(ListSink::new(alloc, puts.to_vec(alloc)?))
}

fn has_run(alloc: Global, run: &Run) -> bool {
    let Ok(mut src) = source(alloc, run.input, run.takes) else {
        return false;
    };
    let Ok(mut sink) = sink(alloc, run.puts) else {
        return false;
    };
    let report = served(alloc, &[], &mut src, &mut sink);
    report.status == run.status && report.lexed == run.lexed && are_joined(sink.bytes(), run.output)
}

fn wrong_run(alloc: Global) -> Option<&'static str> {
    for run in &RUNS {
        if !has_run(alloc, run) {
            return Some(run.what);
        }
    }
    None
}

#[test]
fn runs_over_ends_in_memory(rt: HostRuntime) -> Result<(), Fail> {
    none_wrong(wrong_run(rt.alloc()))
}

/// A line of four tokens in a request, and how many of them a text has.
const ITEM: &[u8] = b"let a = 1\\n";

const ITEMS: u32 = 1_000;

const FAULTS: &[u8] = b"{\"query\":\"errors\"}\n";

/// One line more.
const BEHIND: &[u8] =
    b"{\"query\":\"tell\",\"start\":{\"line\":1001,\"col\":0},\"end\":{\"line\":1001,\"col\":0},\"text\":\"let b = 2\"}\n";

/// What ends the request, and those after it.
const REST: [&[u8]; 4] = [b"\"}\n", FAULTS, BEHIND, FAULTS];

/// The text is told, and its faults are asked for; then the same of one line more.
fn lines(alloc: Global) -> Result<Vec<u8>, NoMemory> {
    let mut bytes = joined(alloc, &[b"{\"query\":\"tell\",\"text\":\""])?;
    for _ in 0..ITEMS {
        bytes.extend_from_slice(ITEM)?;
    }
    for piece in &REST {
        bytes.extend_from_slice(piece)?;
    }
    Ok(bytes)
}

/// Whether only the line is read and parsed that comes after the others.
fn reads_the_last_line(alloc: Global) -> bool {
    match lines(alloc) {
        Ok(input) => {
            let mut src = SureSource::new(input);
            let report = served(alloc, &[], &mut src, &mut SureSink::new());
            report.status == Status::Done && report.lexed == 4_004 && report.shifted == 4_004
        }
        Err(_) => false,
    }
}

#[test]
fn a_line_after_a_thousand_is_read_alone(rt: HostRuntime) -> Result<(), Fail> {
    none_wrong(wrong_unless(
        reads_the_last_line(rt.alloc()),
        "4,004 tokens lexed and shifted",
    ))
}

/// Words: what they are, the words, which put fails and how many bytes it puts before, the status, how many nodes are typed,
/// and the output.
type WordRow = (
    &'static str,
    &'static [&'static str],
    &'static [(u64, u32)],
    Status,
    u64,
    &'static [u8],
);

const REFUSED: [WordRow; 7] = [
    ("x", &["x"], &[], Status::BadWords, 0, b""),
    ("--help", &["--help"], &[], Status::BadWords, 0, b""),
    ("--make", &["--make"], &[], Status::BadWords, 0, b""),
    ("--make 0", &["--make", "0"], &[], Status::BadWords, 0, b""),
    (
        "--make 20001",
        &["--make", "20001"],
        &[],
        Status::BadWords,
        0,
        b"",
    ),
    ("--make=0", &["--make=0"], &[], Status::BadWords, 0, b""),
    (
        "--make twice",
        &["--make", "1", "--make", "2"],
        &[],
        Status::BadWords,
        0,
        b"",
    ),
];

const MADE_RUNS: [WordRow; 3] = [
    ("--make 5", &["--make", "5"], &[], Status::Done, 6, MADE),
    ("--make=5", &["--make=5"], &[], Status::Done, 6, MADE),
    (
        "a put that fails",
        &["--make", "5"],
        &[(1, 4)],
        Status::WriteFault,
        6,
        b"{\"by",
    ),
];

fn owned(alloc: Global, words: &[&str]) -> Result<Vec<String>, NoMemory> {
    let mut owned = Vec::new(alloc);
    for word in words {
        owned.push(String::from_str(alloc, word)?)?;
    }
    Ok(owned)
}

/// Whether words, over an input that isn't to be read, have this end, this count and this output.
fn asks(alloc: Global, (_, words, puts, status, typed, output): WordRow) -> bool {
    let Ok(words) = owned(alloc, words) else {
        return false;
    };
    let Ok(mut sink) = sink(alloc, puts) else {
        return false;
    };
    let Ok(unread) = joined(alloc, &[TELL]) else {
        return false;
    };
    let mut src = SureSource::new(unread);
    let report = served(alloc, &words, &mut src, &mut sink);
    report.status == status && report.typed == typed && sink.bytes() == output
}

fn wrong_words(alloc: Global) -> Option<&'static str> {
    for row in &REFUSED {
        if !asks(alloc, *row) {
            return Some(row.0);
        }
    }
    None
}

#[test]
fn words_are_refused(rt: HostRuntime) -> Result<(), Fail> {
    none_wrong(wrong_words(rt.alloc()))
}

fn wrong_made_run(alloc: Global) -> Option<&'static str> {
    for row in &MADE_RUNS {
        if !asks(alloc, *row) {
            return Some(row.0);
        }
    }
    None
}

#[test]
fn made_runs_put_one_line(rt: HostRuntime) -> Result<(), Fail> {
    none_wrong(wrong_made_run(rt.alloc()))
}

fn is_done(report: Report) -> bool {
    report.status == Status::Done && report.lexed == 8
}

/// Whether ends that never fail are served.
fn serves_sure_ends(alloc: Global) -> bool {
    match joined(alloc, &[TELL, ASK]) {
        Ok(input) => {
            let mut src = SureSource::new(input);
            is_done(served(alloc, &[], &mut src, &mut SureSink::new()))
        }
        Err(_) => false,
    }
}

/// Whether readers and writers of the standard library are served.
fn serves_standard_ends(alloc: Global) -> bool {
    match joined(alloc, &[TELL, ASK]) {
        Ok(input) => {
            let mut src = ReadEnd::new(input.as_slice());
            let mut sink = WriteEnd::new(Vec::new(alloc));
            is_done(served(alloc, &[], &mut src, &mut sink))
        }
        Err(_) => false,
    }
}

#[test]
fn other_ends_are_served(rt: HostRuntime) -> Result<(), Fail> {
    none_wrong(wrong_unless(serves_sure_ends(rt.alloc()), "sure ends"))?;
    none_wrong(wrong_unless(serves_standard_ends(rt.alloc()), "standard ends"))
}
