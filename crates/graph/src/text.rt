// A text of bytes, read by lines, words and numbers.
ghost use Rattle.std.specs.Prelude.{◌≡◌, ◌≤◌, ℕ, ◌<◌, Bool, length, drop, ◌==◌};
ghost use Rattle.std.specs.Iterator.{YieldsFirstRef, item_count};
ghost use Rattle.graph.specs.Text.{is_blank, front, line_of, after_line, lines_of, word_of, after_word, number_of};

// Is this byte a blank within a line?
fn is_blank(b: u8) -> bool
    ensures { result ≡ is_blank b }
{
    matches!(b, b' ' | b'\t' | b'\r')
}

// How many bytes at the front pass a test.
fn front_of<F: Fn(u8) -> bool>(text: &[u8], passes: F) -> usize
    requires { (f : F) (b : _) → F.pre f b }
    ensures value { (test : ℕ → Bool) → ((f : F) (b : ℕ) (r : Bool) → F.post f b r → r ≡ test b) → result ≡ front test text.now }
    ensures bound { result ≤ length text.now }
{
    text.iter().take_while(|b| passes(**b)).count()
}

// A text without its first byte.
fn past_first(text: &[u8]) -> &[u8]
    ensures { result.now ≡ drop 1 text.now }
{
    match text {
        [] => text,
        [_, rest @ ..] => rest,
    }
}

// A word of digits as a number; one beyond 32 bits counts as the largest, so no `parse`.
pub fn number(word: &[u8]) -> Option<u32>
    ensures { result ≡ number_of word.now }
{
    if word.is_empty() {
        return None;
    }
    let mut value = 0u32;
    for b in word {
        if !b.is_ascii_digit() {
            return None;
        }
        value = value
            .saturating_mul(10)
            .saturating_add(u32::from(*b - b'0'));
    }
    Some(value)
}

// What is left of a text.
#[derive(Drop)]
pub struct Cursor<'a> {
    rest: &'a [u8],
}

impl<'a> Cursor<'a> {
    pub fn new(text: &'a [u8]) -> Cursor<'a>
        ensures { result.rest.now ≡ text.now }
    {
        Cursor { rest: text }
    }

    pub fn at_end(&self) -> bool
        ensures { result ≡ (length self.now.rest.now == 0) }
    {
        self.rest.is_empty()
    }

    // The next line; the text goes on behind it.
    pub fn line(&mut self) -> &'a [u8]
        ensures line { result.now ≡ line_of self.old.rest.now }
        ensures rest { self.new.rest.now ≡ after_line self.old.rest.now }
    {
        let text = self.rest;
        let (line, behind) = text.split_at(front_of(text, |b| b != b'\n'));
        self.rest = past_first(behind);
        line
    }

    // The next word; the text goes on behind it. No word is empty, so an empty one is the end: one more case of a match.
    pub fn word(&mut self) -> &'a [u8]
        ensures word { result.now ≡ word_of self.old.rest.now }
        ensures rest { self.new.rest.now ≡ after_word self.old.rest.now }
    {
        let (_, text) = self.rest.split_at(front_of(self.rest, is_blank));
        let (word, rest) = text.split_at(front_of(text, |b| !is_blank(b)));
        self.rest = rest;
        word
    }
}

// The lines of a text, in order. No `split`: that gives an empty piece behind the last newline.
#[derive(Drop)]
pub struct Lines<'a> {
    cursor: Cursor<'a>,
}

impl<'a> Lines<'a> {
    pub fn new(text: &'a [u8]) -> Lines<'a>
        ensures { result.cursor.rest.now ≡ text.now }
    {
        Lines {
            cursor: Cursor::new(text),
        }
    }
}

impl<'a> Iterator for Lines<'a> {
    type Item = &'a [u8];

    ghost next_gives = { YieldsFirstRef (λ s. lines_of s.cursor.rest.now) };

    ghost remaining = { item_count (λ s. lines_of s.cursor.rest.now) };

    fn next(&mut self) -> Option<&'a [u8]> {
        if self.cursor.at_end() {
            return None;
        }
        Some(self.cursor.line())
    }
}
