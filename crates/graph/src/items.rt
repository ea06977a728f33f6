// The items of a text.
ghost use Rattle.std.specs.Iterator.{item_count};
ghost use Rattle.std.specs.Prelude.{◌≡◌, ◌+◌, ◌^◌, ◌<◌, length};
ghost use Rattle.graph.specs.Text.{lines_of};

use crate::item::{Item, item_of};
use crate::text::Lines;

// The items of a text, one at a time, and how many lines were read. No `enumerate`: the count is asked for behind the
// last item too.
#[derive(Drop)]
pub struct Items<'a> {
    lines: Lines<'a>,
    pub(crate) line: usize,
    ghost countable: { line + length (lines_of lines.cursor.rest.now) < 2 ^ 63 },
}

impl<'a> Items<'a> {
    pub(crate) fn new(text: &'a [u8]) -> Items<'a>
        ensures line { result.line ≡ 0 }
        ensures rest { result.lines.cursor.rest.now ≡ text.now }
    {
        Items {
            lines: Lines::new(text),
            line: 0,
        }
    }
}

impl Iterator for Items<'_> {
    ghost use Rattle.graph.specs.Turns.{left_of, Next};

    type Item = Item;

    ghost next_gives = { Next };

    ghost remaining = { item_count left_of };

    // What the next line says.
    fn next(&mut self) -> Option<Item> {
        let line = self.lines.next()?;
        self.line += 1;
        Some(item_of(line))
    }
}
