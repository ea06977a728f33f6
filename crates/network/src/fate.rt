// What becomes of an event where the power may go.

// Lost: the power went before the page was renamed, and nothing happened. Kept: it went later, so that the page
// stands, and only the first so many transmissions went out. Whole: it did not go.
#[derive(Clone, Copy)]
pub enum Fate {
    Lost,
    Kept(usize),
    Whole,
}
