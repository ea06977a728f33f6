// A valley file: `houses N`, then `line A B L` for each edge.
ghost use Rattle.std.specs.Prelude.{Some};
ghost use Rattle.graph.specs.Reading.{Taken, Read, told_of};
ghost use Rattle.graph.specs.Turns.{Sought, Opened, AllTaken};

use crate::edge_list::EdgeList;
use crate::fault::Fault;
use crate::item::Item;
pub use crate::items::Items;
use std::alloc::Global;
use std::error::Error;
use std::fmt;

// A line of the file and what is wrong with it; where the nodes can't be joined, the last line.
#[derive(Clone, Copy, PartialEq, Eq, Debug)]
pub struct Refusal {
    pub line: usize,
    pub fault: Fault,
}

// `refused 7: line 3: ..`, or that memory is wanting.
impl fmt::Display for Refusal {
    ghost output = { λ r. Some (told_of r) };

    fn fmt<W: fmt::Write>(&self, f: &mut fmt::Formatter<W>) -> fmt::Result {
        let Refusal { line, fault } = *self;
        match fault.refusal() {
            Some(refusal) => {
                let number = refusal.number();
                write!(f, "refused {number}: line {line}: {fault}")
            }
            None => write!(f, "{fault}"),
        }
    }
}

impl Error for Refusal {}

// One item behind `houses`.
pub(crate) fn take_item(list: &mut EdgeList, item: Item) -> Result<(), Fault>
    ensures { Taken list.old list.new item result }
{
    match item {
        Item::Blank => Ok(()),
        Item::Houses(_) => Err(Fault::CountTwice),
        Item::Line(e) => list.add(e),
        Item::Unknown => Err(Fault::NotUnderstood),
    }
}

impl Items<'_> {
    // The next item that is not blank.
    fn first(&mut self) -> Option<Item>
        ensures { Sought self.old result self.new }
    {
        self.find(|item| *item != Item::Blank)
    }
}

// All items up to `houses`.
fn open(heap: Global, items: &mut Items<'_>) -> Result<EdgeList, Refusal>
    ensures { Opened items.old items.new result }
{
    // No `ok_or`, which would make the refusal before it is known that there is one.
    let Some(item) = items.first() else {
        return Err(Refusal {
            line: items.line + 1,
            fault: Fault::NoCount,
        });
    };
    let line = items.line;
    match item {
        Item::Houses(n) => EdgeList::new(heap, n).map_err(|fault| Refusal { line, fault }),
        Item::Line(_) => Err(Refusal {
            line,
            fault: Fault::NoCount,
        }),
        Item::Blank | Item::Unknown => Err(Refusal {
            line,
            fault: Fault::NotUnderstood,
        }),
    }
}

// All items behind `houses`. In the loop `items` is asked for the line, so no `for` takes it.
fn take_all(list: &mut EdgeList, items: &mut Items<'_>) -> Result<(), Refusal>
    ensures { AllTaken list.old list.new items.old items.new result }
{
    while let Some(item) = items.next() {
        let line = items.line;
        take_item(list, item).map_err(|fault| Refusal { line, fault })?;
    }
    Ok(())
}

// The graph that a valley file describes, or its first fault.
pub fn read(heap: Global, text: &[u8]) -> Result<EdgeList, Refusal>
    ensures { Read text.now result }
{
    let mut items = Items::new(text);
    let mut list = open(heap, &mut items)?;
    take_all(&mut list, &mut items)?;
    if !list.connected() {
        return Err(Refusal {
            line: items.line,
            fault: Fault::Apart,
        });
    }
    Ok(list)
}
