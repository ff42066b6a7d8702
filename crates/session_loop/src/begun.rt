//! The line that has begun: as many of its bytes as tell whether it is too long, and whether it is blank so far.
ghost use Rattle.std.specs.Prelude.{◌≡◌, ◌≤◌, ◌++◌, ◌∷◌, [], List, ℕ, take, vec_capacity};
ghost use Rattle.service_model.specs.Runs.{is_blank_byte as is_blank};

use std::alloc::{AllocError, Global};

/// One byte more than a request line may have.
pub const KEPT_LIMIT: usize = 8_388_609;

fn is_blank_byte(byte: u8) -> bool
    ensures { result ≡ is_blank byte }
{
    byte == b' ' || byte == b'\t' || byte == b'\r'
}

/// Adds a byte to the kept ones while they are not too many.
fn keep(bytes: &mut Vec<u8>, byte: u8)
    requires { 8388609 ≤ vec_capacity bytes.old }
    ensures room { 8388609 ≤ vec_capacity bytes.new }
    ensures kept { (line : List ℕ) → bytes.old.items ≡ take 8388609 line
        → bytes.new.items ≡ take 8388609 (line ++ byte ∷ []) }
{
    if bytes.len() < KEPT_LIMIT {
        let _ = bytes.push(byte);
    }
}

/// What is kept of the line that has begun.
#[derive(Drop)]
pub struct Begun {
    pub bytes: Vec<u8>,
    pub blank: bool,
    pub ghost room: { 8388609 ≤ vec_capacity bytes },
}

impl Begun {
    ghost use Rattle.session_loop.specs.Begun.{Holds};
    ghost use Rattle.std.specs.Prelude.{IfOk};

    /// No byte, with room for all that will be kept.
    pub fn new(alloc: Global) -> Result<Begun, AllocError>
        ensures { IfOk result (λ b. Holds b []) }
    {
        let bytes = Vec::with_capacity(alloc, KEPT_LIMIT)?;
        Ok(Begun { bytes, blank: true })
    }

    /// The next byte of the line. It takes no memory.
    pub fn push(&mut self, byte: u8)
        ensures { (line : List ℕ) → Holds self.old line → Holds self.new (line ++ byte ∷ []) }
    {
        keep(&mut self.bytes, byte);
        self.blank = self.blank && is_blank_byte(byte);
    }

    /// Begins the next line. The room stays.
    pub fn clear(&mut self)
        ensures { Holds self.new [] }
    {
        self.bytes.clear();
        self.blank = true;
    }
}
