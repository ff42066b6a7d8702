//! The keys of requests.
ghost use Rattle.std.specs.Prelude.{◌≡◌, codes, [], ◌∷◌, Some};
ghost use Rattle.service_model.specs.Requests.{dotted};
ghost use Rattle.json_lines.specs.Meets.{key_text, place_name};

use std::fmt;

/// A key of a request, as a refusal names it.
#[derive(Clone, Copy, Debug, PartialEq, Eq)]
pub enum Key {
    /// `at`: the position that a query asks of.
    At,
    /// `at.line`
    AtLine,
    /// `at.col`
    AtCol,
    /// `prefix`: the beginning that is to be completed.
    Prefix,
    /// `start`: the position where an edit starts.
    Start,
    /// `start.line`
    StartLine,
    /// `start.col`
    StartCol,
    /// `end`: the position where an edit ends.
    End,
    /// `end.line`
    EndLine,
    /// `end.col`
    EndCol,
    /// `text`: the new text.
    Text,
}

impl Key {
    /// The key as a refusal writes it, with points between the names on its way.
    pub fn name(self) -> &'static str
        ensures { result.now ≡ key_text self }
    {
        match self {
            Key::At => "at",
            Key::AtLine => "at.line",
            Key::AtCol => "at.col",
            Key::Prefix => "prefix",
            Key::Start => "start",
            Key::StartLine => "start.line",
            Key::StartCol => "start.col",
            Key::End => "end",
            Key::EndLine => "end.line",
            Key::EndCol => "end.col",
            Key::Text => "text",
        }
    }
}

impl fmt::Display for Key {
    ghost output = { λ key. Some (key_text key) };

    fn fmt<W: fmt::Write>(&self, f: &mut fmt::Formatter<W>) -> fmt::Result {
        f.write_str(self.name())
    }
}

/// The places at which a request may have a position.
#[derive(Clone, Copy, Debug, PartialEq, Eq)]
pub enum Place {
    At,
    Start,
    End,
}

impl Place {
    /// The name at which the position stands.
    pub fn name(self) -> &'static str
        ensures { result.now ≡ place_name self }
    {
        self.key().name()
    }

    /// The key of the position.
    pub fn key(self) -> Key
        ensures { key_text result ≡ dotted (place_name self ∷ []) }
    {
        match self {
            Place::At => Key::At,
            Place::Start => Key::Start,
            Place::End => Key::End,
        }
    }

    /// The key of the position's line.
    pub fn line(self) -> Key
        ensures { key_text result ≡ dotted (place_name self ∷ codes "line" ∷ []) }
    {
        match self {
            Place::At => Key::AtLine,
            Place::Start => Key::StartLine,
            Place::End => Key::EndLine,
        }
    }

    /// The key of the position's column.
    pub fn col(self) -> Key
        ensures { key_text result ≡ dotted (place_name self ∷ codes "col" ∷ []) }
    {
        match self {
            Place::At => Key::AtCol,
            Place::Start => Key::StartCol,
            Place::End => Key::EndCol,
        }
    }
}
