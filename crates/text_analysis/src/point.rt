//! The point before an item, which brings back the state that the item was typed from.
ghost use Rattle.text_analysis.specs.Points.{GoesBack};

use type_nodes::Mark;
use typing_state::{Env, Parts, Telling};

/// Where the typing of a text was before an item: what there was so far.
#[derive(Drop)]
pub struct Point {
    /// The number of the item.
    pub number: u32,
    pub mark: Mark,
    pub faults: usize,
    pub env: Env,
    pub components: usize,
    pub makes: usize,
    /// Whether no item before it names a type, a module or a module type.
    pub is_plain: bool,
}

/// Brings back the nodes, the faults and what was recorded before an item: types that later items gave to variables of earlier ones
/// are open again. What is typed next is reported.
pub fn go_back(at: &mut Parts, point: &Point)
    ensures { GoesBack point.now at.old at.new }
{
    if point.mark.0 <= at.store.snapshot().0 {
        at.store.rollback(point.mark);
    }
    at.index.truncate_to_item(point.number);
    at.faults.list.truncate(point.faults);
    at.level = 0;
    at.telling = Telling::Aloud;
}
