//! Which lines have one reply.
ghost use Rattle.std.specs.Prelude.{List, ℕ};
ghost use Rattle.service_model.specs.Requests.{reading};
ghost use Rattle.run_check.specs.Settled.{IsKnown, IsSettled};

/// But for want of memory, the text allows one reply to a line that is no request, to a `tell`, to an `outline`, and to a request of a
/// position that doesn't exist.
pub fn known_replies_are_settled()
    ensures { (text line : List ℕ) → IsKnown text (reading line) → IsSettled text line }
{}
