// What is read off the front of a page's bytes.
ghost use Rattle.std.specs.Prelude.{◌≡◌, ℕ, List, [], map};
ghost use Rattle.page.specs.Reading.{Front, fronts, ReadAs};

use super::Unread;
use std::alloc::Global;

// The bytes that are left.
#[derive(Drop)]
pub(crate) struct Reader<'a> {
    pub heap: Global,
    pub left: &'a [u8],
}

// `view` is what contracts see of it, and `front` what bytes begin with. After a refusal nothing more is read.
// A reader is taken apart by `let .. else`, a rule of the project.
pub(crate) trait FromPage: Sized {
    ghost Value: { Type 0 };

    ghost view: { Self → Value };

    ghost front: { List ℕ → Front Value };

    fn read(reader: &mut Reader) -> Result<Self, Unread>
        ensures { ReadAs (λ x. (view x, reader.new.left.now)) result (front reader.old.left.now) };
}

impl Reader<'_> {
    // As many, one behind the other: a `for`, since a chain would not say that one that is not read refuses all.
    #[tactic(auto, using(crate::proofs::Fronts::fronts_none, crate::proofs::Fronts::fronts_step, std::proofs::lemmas::List::map_push))]
    pub fn all<T: FromPage + Drop>(&mut self, count: usize) -> Result<Vec<T>, Unread>
        ensures { ReadAs (λ v. (map T.view v.items, self.new.left.now)) result (fronts T.front count [] self.old.left.now) }
    {
        let mut items = Vec::new(self.heap);
        for _ in 0..count {
            items.push(T::read(self)?)?;
        }
        Ok(items)
    }
}
