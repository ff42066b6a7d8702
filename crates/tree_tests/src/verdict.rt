//! How a test ends.
use std::test::Fail;

/// Fails with the name of the first row that is wrong, if there is one.
pub fn none_wrong(wrong: Option<&'static str>) -> Result<(), Fail> {
    match wrong {
        None => Ok(()),
        Some(row) => Err(Fail::new(row)),
    }
}

/// The name of what doesn't hold.
pub fn wrong_unless(holds: bool, name: &'static str) -> Option<&'static str> {
    if holds { None } else { Some(name) }
}
