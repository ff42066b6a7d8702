//! How the outermost parts of values are written, with `_` for what stands inside.
ghost use Rattle.std.specs.Prelude.{◌≡◌, ◌++◌, map, codes, string_bytes, OnOk};
ghost use Rattle.type_alternatives.specs.Alternatives.{named_of};
ghost use Rattle.type_alternatives.specs.Templates.{written, separated, field_text, tuple_text, record_text};

use crate::values::PathTo;
use text_terms::NoMemory;

/// A name by its path, or alone where no path reaches it.
pub fn written(path: &PathTo) -> &str
    ensures { result.now ≡ written (named_of path.now) }
{
    match &path.path {
        Some(path) => path.as_str(),
        None => path.name.as_str(),
    }
}

/// Puts a piece behind a text.
pub fn put(text: &mut String, piece: &str) -> Result<(), NoMemory>
    ensures { OnOk result (string_bytes text.new ≡ string_bytes text.old ++ piece.now) }
{
    text.push_str(piece)
}

/// Puts `(_, _)` of so many parts behind a text.
#[tactic(auto, using(crate::proofs::Repeats::repeated_step, crate::proofs::Repeats::repeated_end))]
pub fn put_tuple(text: &mut String, parts: usize) -> Result<(), NoMemory>
    ensures { OnOk result (string_bytes text.new ≡ string_bytes text.old ++ tuple_text parts) }
{
    put(text, "(_")?;
    for _ in 1..parts {
        put(text, ", _")?;
    }
    put(text, ")")
}

/// Puts `{ l = _; m = _ }` behind a text.
pub fn put_record(text: &mut String, labels: &[PathTo]) -> Result<(), NoMemory>
    ensures { OnOk result (string_bytes text.new ≡ string_bytes text.old ++ record_text (map named_of labels.now)) }
{
    put(text, "{ ")?;
    put_fields(text, labels)?;
    put(text, " }")
}

fn put_fields(text: &mut String, labels: &[PathTo]) -> Result<(), NoMemory>
    ensures { OnOk result (string_bytes text.new ≡ string_bytes text.old ++ separated (codes "; ") (map field_text (map named_of labels.now))) }
{
    let Some((first, others)) = labels.split_first() else {
        return Ok(());
    };
    put_field(text, first)?;
    for label in others {
        put(text, "; ")?;
        put_field(text, label)?;
    }
    Ok(())
}

fn put_field(text: &mut String, label: &PathTo) -> Result<(), NoMemory>
    ensures { OnOk result (string_bytes text.new ≡ string_bytes text.old ++ field_text (named_of label.now)) }
{
    put(text, written(label))?;
    put(text, " = _")
}
