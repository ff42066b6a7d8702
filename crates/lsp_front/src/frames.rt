//! Frames: where a message begins and ends in a stream of bytes.
ghost use Rattle.std.specs.Prelude.{◌≡◌, ◌+◌, ◌<◌, ◌≤◌, ◌++◌, [], drop, length, option_map, take, IfSome};
ghost use Rattle.std.specs.List.{list_all};
ghost use Rattle.lsp_model.specs.Frames.{block_from, ends_line as ends_line_spec, frame, frame_behind, front_run, has_length as has_length_spec, is_blank as is_blank_spec, is_digit as is_digit_spec, length_in, nothing, number_from, number_in, with_line as with_line_spec, with_number as with_number_spec};
ghost use Rattle.lsp_front.specs.Heads.{block_of as block_view, frame_of as frame_view, told_of, IsWithin};

/// How many bytes a block of header lines may have, its empty line among them.
pub const HEAD_LIMIT: usize = 4096;

/// How many bytes a body may have.
pub const BODY_LIMIT: u32 = 8_388_608;

/// What some bytes begin with.
#[derive(Clone, Copy, Debug, PartialEq, Eq)]
pub enum Framed {
    /// A whole message: the bytes of its header lines, and those of its body.
    Whole { head: u32, body: u32 },
    /// The head of a message whose body is longer than `BODY_LIMIT`.
    Over { head: u32, body: u64 },
    /// The front of a message.
    More,
    /// No message: the header lines say no length or no allowed one, or they have no end within `HEAD_LIMIT` bytes.
    Bad,
}

/// What header lines say of the body's length.
#[derive(Clone, Copy, Debug, PartialEq, Eq)]
enum Told {
    Nothing,
    Bytes(u64),
    Wrong,
}

fn is_blank(byte: u8) -> bool
    ensures { result ≡ is_blank_spec byte }
{
    byte == b' ' || byte == b'\t'
}

fn is_digit(byte: u8) -> bool
    ensures { result ≡ is_digit_spec byte }
{
    b'0' <= byte && byte <= b'9'
}

/// How many blanks a text begins with.
fn blanks_at_front(text: &[u8]) -> usize
    ensures value { result ≡ front_run is_blank_spec text.now }
    ensures within { result ≤ length text.now }
{
    for (at, byte) in text.iter().enumerate() {
        if !is_blank(*byte) {
            return at;
        }
    }
    text.len()
}

/// How many digits a text begins with.
fn digits_at_front(text: &[u8]) -> usize
    ensures value { result ≡ front_run is_digit_spec text.now }
    ensures within { result ≤ length text.now }
{
    for (at, byte) in text.iter().enumerate() {
        if !is_digit(*byte) {
            return at;
        }
    }
    text.len()
}

/// The number that at most ten digits are.
fn number_of(digits: &[u8]) -> u64
    requires { length digits.now ≤ 10 }
    ensures { result ≡ number_from 0 digits.now }
{
    let mut number: u64 = 0;
    for digit in digits {
        number = number * 10 + digit.saturating_sub(b'0') as u64;
    }
    number
}

fn are_blanks(text: &[u8]) -> bool
    ensures { result ≡ list_all is_blank_spec text.now }
{
    text.iter().all(|byte| is_blank(*byte))
}

/// A number of 1 to 10 digits with blanks alone behind it.
fn read_number(text: &[u8]) -> Option<u64>
    ensures { result ≡ number_in text.now }
{
    let digits = digits_at_front(text);
    if 1 <= digits && digits <= 10 && are_blanks(&text[digits..]) {
        Some(number_of(&text[..digits]))
    } else {
        None
    }
}

/// The number of a header line behind the header's name.
fn read_length(line: &[u8]) -> Option<u64>
    ensures { result ≡ length_in line.now }
{
    let value = &line[15usize.min(line.len())..];
    read_number(&value[blanks_at_front(value)..])
}

/// Whether a header line has the header that counts.
fn has_length(line: &[u8]) -> bool
    ensures { result ≡ has_length_spec line.now }
{
    line[..15usize.min(line.len())].eq_ignore_ascii_case(b"content-length:")
}

fn with_number(told: Told, number: Option<u64>) -> Told
    ensures { told_of result ≡ with_number_spec (told_of told) number }
{
    match (told, number) {
        (Told::Nothing, Some(number)) => Told::Bytes(number),
        _ => Told::Wrong,
    }
}

/// What header lines say with one more line.
#[tactic(auto, unfolding(lsp_model::specs::Frames::with_line))]
fn with_line(told: Told, line: &[u8]) -> Told
    ensures { told_of result ≡ with_line_spec (told_of told) line.now }
{
    if has_length(line) {
        with_number(told, read_length(line))
    } else {
        told
    }
}

/// Whether a byte ends the header line that is before it.
fn ends_line(line: &[u8], byte: u8) -> bool
    ensures { result ≡ ends_line_spec line.now byte }
{
    byte == b'\n' && 0 < line.len() && line[line.len() - 1] == b'\r'
}

/// The end of the block that the bytes begin with, if it ends in them, and what its lines say.
fn block_of(bytes: &[u8]) -> Option<(usize, Told)>
    ensures value { option_map block_view result ≡ block_from 0 nothing [] bytes.now }
    ensures within { IfSome result (λ b. (0 < b.0) × (b.0 ≤ length bytes.now)) }
{
    let mut told = Told::Nothing;
    let mut start = 0;
    for (at, byte) in bytes.iter().enumerate() {
        let line = &bytes[start..at];
        if ends_line(line, *byte) {
            if line.len() == 1 {
                return Some((at + 1, told));
            }
            told = with_line(told, &line[..line.len() - 1]);
            start = at + 1;
        }
    }
    None
}

/// What so many bytes begin with, by the block that has ended.
fn framed_by(count: usize, head: u32, told: Told) -> Framed
    requires some { 0 < head }
    requires few { head ≤ 4096 }
    requires within { head ≤ count }
    ensures value { frame_view result ≡ frame_behind count head (told_of told) }
    ensures within { IsWithin count result }
{
    let Told::Bytes(body) = told else {
        return Framed::Bad;
    };
    if body > BODY_LIMIT as u64 {
        return Framed::Over { head, body };
    }
    if head as u64 + body <= count as u64 {
        Framed::Whole {
            head,
            body: body as u32,
        }
    } else {
        Framed::More
    }
}

/// What some bytes begin with. Of a message it needs no more than the header lines and the number of bytes.
#[tactic(auto, unfolding(lsp_model::specs::Frames::frame))]
pub fn frame_of(bytes: &[u8]) -> Framed
    ensures value { frame_view result ≡ frame bytes.now }
    ensures within { IsWithin (length bytes.now) result }
{
    match block_of(&bytes[..HEAD_LIMIT.min(bytes.len())]) {
        Some((head, told)) => framed_by(bytes.len(), head as u32, told),
        None if bytes.len() < HEAD_LIMIT => Framed::More,
        None => Framed::Bad,
    }
}
