// What one line of a valley file says.
ghost use Rattle.graph.specs.Items.{item_of, count_behind, edge_behind};
ghost use Rattle.std.specs.Prelude.{◌≡◌};

use crate::edge::WeightedEdge;
use crate::text::{Cursor, number};

// A blank line or a comment, `houses N`, `line A B L`, or something else.
#[derive(Clone, Copy, PartialEq, Eq, Debug)]
pub enum Item {
    Blank,
    Houses(usize),
    Line(WeightedEdge),
    Unknown,
}

// The count that stands behind `houses`.
fn count(cursor: &mut Cursor<'_>) -> Option<usize>
    ensures { result ≡ count_behind cursor.old.rest.now }
{
    let count = number(cursor.word())? as usize;
    cursor.word().is_empty().then_some(count)
}

// The edge that stands behind `line`.
fn edge(cursor: &mut Cursor<'_>) -> Option<WeightedEdge>
    ensures { result ≡ edge_behind cursor.old.rest.now }
{
    let a = number(cursor.word())? as usize;
    let b = number(cursor.word())? as usize;
    let weight = number(cursor.word())?;
    cursor
        .word()
        .is_empty()
        .then_some(WeightedEdge { a, b, weight })
}

// What a line says.
pub(crate) fn item_of(line: &[u8]) -> Item
    ensures { result ≡ item_of line.now }
{
    let mut cursor = Cursor::new(line);
    match cursor.word() {
        [] | [b'#', ..] => Item::Blank,
        b"houses" => count(&mut cursor).map_or(Item::Unknown, Item::Houses),
        b"line" => edge(&mut cursor).map_or(Item::Unknown, Item::Line),
        _ => Item::Unknown,
    }
}
