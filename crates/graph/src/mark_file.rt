// The marks of edges as text: `mark A B unsure`, `laid` or `ruled`, as A sees the line to B.
ghost use Rattle.graph.specs.MarkLines.{mark_word, mark_line_of, marks_after, Verdict};
ghost use Rattle.graph.specs.Text.{lines_of};
ghost use Rattle.std.specs.Prelude.{◌≡◌, IfOk};

use crate::edge::WeightedEdge;
use crate::edge_list::EdgeList;
use crate::mark::Mark;
pub use crate::mark::MarkLine;
use crate::text::{Cursor, Lines, number};
use crate::verdict::Marks;
use std::alloc::{AllocError, Global};

// A mark by its word. No `TryFrom`: there is no error to tell.
fn mark_of(word: &[u8]) -> Option<Mark>
    ensures { result ≡ mark_word word.now }
{
    match word {
        b"unsure" => Some(Mark::Basic),
        b"laid" => Some(Mark::Branch),
        b"ruled" => Some(Mark::Rejected),
        _ => None,
    }
}

// What a line says of a mark; None for any other line.
pub(crate) fn mark_line(line: &[u8]) -> Option<MarkLine>
    ensures { result ≡ mark_line_of line.now }
{
    let mut cursor = Cursor::new(line);
    if cursor.word() != b"mark".as_slice() {
        return None;
    }
    let at = number(cursor.word())? as usize;
    let to = number(cursor.word())? as usize;
    let mark = mark_of(cursor.word())?;
    cursor
        .word()
        .is_empty()
        .then_some(MarkLine { at, to, mark })
}

impl Marks<'_> {
    // Sets all marks of a text; of two marks of one end the later counts.
    pub fn take(&mut self, text: &[u8])
        ensures list { self.new.list.now ≡ self.old.list.now }
        ensures marks { self.new.edges.items ≡ marks_after self.old.edges.items (lines_of text.now) }
    {
        for line in Lines::new(text) {
            if let Some(line) = mark_line(line) {
                self.set(line);
            }
        }
    }
}

// None where the marks of a text are those of the lightest net, else the lightest edge that is marked wrong.
pub fn judge(heap: Global, list: &EdgeList, text: &[u8]) -> Result<Option<WeightedEdge>, AllocError>
    ensures { IfOk result (λ v. Verdict list.now text.now v) }
{
    // Beside the edges, marks take a sixteenth of what `Marks` takes.
    let mut marks = list.unmarked(heap)?;
    for text_line in Lines::new(text) {
        if let Some(MarkLine { at, to, mark }) = mark_line(text_line) {
            list.set_mark(&mut marks, at, to, mark);
        }
    }
    Ok(list.verdict(&marks))
}
