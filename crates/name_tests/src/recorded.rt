//! What is recorded for the nodes of a text.
use std::alloc::Global;
use std::test::Fail;
use syntax_tree::{NoMemory, NodeId};
use typed_index::TypedIndex;

enum Step {
    /// Records a letter for a node of an item
    Note(u32, u32, char),
    /// Forgets the items from one on
    Cut(u32),
    /// What is recorded for a node of an item
    Get(u32, u32, Option<char>),
}

fn holds(index: &mut TypedIndex<char>, step: &Step) -> Result<bool, NoMemory> {
    match step {
        Step::Note(item, pre, seen) => {
            let (item, pre) = (*item, *pre);
            index.note(NodeId { item, pre }, *seen)?;
        }
        Step::Cut(item) => index.truncate_to_item(*item),
        Step::Get(item, pre, wanted) => {
            let (item, pre) = (*item, *pre);
            return Ok(index.get(NodeId { item, pre }).copied() == *wanted);
        }
    }
    Ok(true)
}

const LAST: &[Step] = &[
    Step::Note(2, 1, 'a'),
    Step::Note(2, 0, 'b'),
    Step::Note(0, 3, 'c'),
    Step::Note(2, 1, 'd'),
    Step::Get(2, 1, Some('d')),
    Step::Get(2, 0, Some('b')),
    Step::Get(0, 3, Some('c')),
    Step::Get(1, 0, None),
    Step::Get(0, 2, None),
    Step::Get(3, 0, None),
];

const CUT: &[Step] = &[
    Step::Note(0, 0, '0'),
    Step::Note(1, 0, '1'),
    Step::Note(2, 0, '2'),
    Step::Note(3, 0, '3'),
    Step::Cut(2),
    Step::Get(1, 0, Some('1')),
    Step::Get(2, 0, None),
    Step::Cut(7),
    Step::Get(0, 0, Some('0')),
    Step::Note(3, 1, '5'),
    Step::Get(3, 0, None),
];

fn all_hold(alloc: Global, steps: &[Step]) -> Result<bool, NoMemory> {
    let mut index = TypedIndex::new(alloc);
    for step in steps {
        if !holds(&mut index, step)? {
            return Ok(false);
        }
    }
    Ok(true)
}

#[test]
fn notes(rt: HostRuntime) -> Result<(), Fail> {
    assert!(rt; all_hold(rt.alloc(), LAST)?, "the last note for a node");
    assert!(rt;
        all_hold(rt.alloc(), CUT)?,
        "cutting forgets the items from one on"
    );
    Ok(())
}
