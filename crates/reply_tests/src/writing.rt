//! The bytes of replies that no text gives in that form. All others are in the sessions.
use crate::verdict::{none_wrong, wrong_unless};
use json_lines::{Listed, OutlineKind, Outlined, Reply, memory_line, write_reply};
use std::alloc::Global;
use std::test::Fail;
use text_terms::{NoMemory, Pos, RcStr};

const START: Pos = Pos { line: 1, col: 0 };

const END: Pos = Pos { line: 1, col: 1 };

/// A reply, each with all keys of its kind.
#[derive(Clone, Copy)]
enum Sample {
    Outline,
    Faults,
    Split,
    Terms,
}

const LINES: [(Sample, &str); 4] = [
    (
        Sample::Outline,
        r#"{"class":"return","value":[{"children":[{"children":[],"end":{"col":9,"line":1},"kind":"Type","name":"t","start":{"col":0,"line":1}}],"end":{"col":9,"line":1},"kind":"Module","name":"M","start":{"col":0,"line":1}}]}"#,
    ),
    (
        Sample::Faults,
        r#"{"class":"return","value":{"list":[{"end":{"col":9,"line":1},"kind":"bound","message":"Unbound value q","start":{"col":8,"line":1},"type":"typer"}],"more":true}}"#,
    ),
    (
        Sample::Split,
        r#"{"class":"return","value":{"end":{"col":1,"line":1},"start":{"col":0,"line":1},"text":"a\"\n"}}"#,
    ),
    (
        Sample::Terms,
        r#"{"class":"return","value":{"end":{"col":1,"line":1},"start":{"col":0,"line":1},"texts":["0"]}}"#,
    ),
];

fn one<T: Drop>(alloc: Global, item: T) -> Result<Vec<T>, NoMemory> {
    let mut items = Vec::new(alloc);
    items.push(item)?;
    Ok(items)
}

fn named(
    alloc: Global,
    children: Vec<Outlined>,
    kind: OutlineKind,
    name: &str,
) -> Result<Outlined, NoMemory> {
    let name = RcStr::from_str(alloc, name)?;
    Ok(Outlined {
        children,
        start: START,
        end: Pos { line: 1, col: 9 },
        kind,
        name,
    })
}

/// A type in a module.
fn outline(alloc: Global) -> Result<Reply, NoMemory> {
    let inner = named(alloc, Vec::new(alloc), OutlineKind::TypeName, "t")?;
    let outer = named(alloc, one(alloc, inner)?, OutlineKind::Module, "M")?;
    Ok(Reply::Outline(one(alloc, outer)?))
}

fn unbound(alloc: Global) -> Result<Listed, NoMemory> {
    let kind = RcStr::from_str(alloc, "bound")?;
    let message = RcStr::from_str(alloc, "Unbound value q")?;
    let ty = RcStr::from_str(alloc, "typer")?;
    Ok(Listed {
        start: Pos { line: 1, col: 8 },
        end: Pos { line: 1, col: 9 },
        kind,
        message,
        ty,
    })
}

fn reply_of(alloc: Global, sample: Sample) -> Result<Reply, NoMemory> {
    match sample {
        Sample::Outline => outline(alloc),
        Sample::Faults => Ok(Reply::Faults {
            list: one(alloc, unbound(alloc)?)?,
            more: true,
        }),
        Sample::Split => Ok(Reply::Split {
            start: START,
            end: END,
            text: RcStr::from_str(alloc, "a\"\n")?,
        }),
        Sample::Terms => Ok(Reply::Terms {
            start: START,
            end: END,
            texts: one(alloc, RcStr::from_str(alloc, "0")?)?,
        }),
    }
}

fn written(alloc: Global, sample: Sample) -> Result<Vec<u8>, NoMemory> {
    let reply = reply_of(alloc, sample)?;
    write_reply(alloc, &reply)
}

fn is_written(alloc: Global, sample: Sample, line: &str) -> bool {
    match written(alloc, sample) {
        Ok(bytes) => bytes.strip_suffix(b"\n") == Some(line.as_bytes()),
        Err(_) => false,
    }
}

fn wrong_line(alloc: Global) -> Option<&'static str> {
    for row in &LINES {
        if !is_written(alloc, row.0, row.1) {
            return Some(row.1);
        }
    }
    None
}

fn is_memory_line() -> bool {
    memory_line() == b"{\"class\":\"memory\"}\n".as_slice()
}

#[test]
fn replies_are_lines(rt: HostRuntime) -> Result<(), Fail> {
    none_wrong(wrong_line(rt.alloc()))?;
    none_wrong(wrong_unless(is_memory_line(), "want of memory"))
}
