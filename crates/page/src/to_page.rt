// What has bytes on a page.
ghost use Rattle.std.specs.Prelude.{◌≡◌, ℕ, Bool, true, List};
ghost use Rattle.std.specs.List.{flat_map, list_all};
ghost use Rattle.message.specs.Bytes.{word};
ghost use Rattle.page.specs.Page.{pair, Appended};

use super::Unwritten;

// Its bytes are put behind what is written already; it is refused where it does not fit.
pub(crate) trait ToPage {
    ghost bytes_of: { Self → List ℕ };

    ghost is_fit: { Self → Bool };

    fn put(&self, page: &mut Vec<u8>) -> Result<(), Unwritten>
        ensures { Appended (bytes_of self.now) (is_fit self.now) page.old page.new result };
}

// Each of them, in order.
pub(crate) fn put_all<T: ToPage>(items: &[T], page: &mut Vec<u8>) -> Result<(), Unwritten>
    ensures { Appended (flat_map T.bytes_of items.now) (list_all T.is_fit items.now) page.old page.new result }
{
    for item in items {
        item.put(page)?;
    }
    Ok(())
}

// The low two bytes of a number. Not a `u16`: a queue may be longer, and then it is the page that does not fit.
pub(crate) fn pair(number: usize) -> [u8; 2]
    ensures { result ≡ pair number }
{
    let [.., high, low] = number.to_be_bytes();
    [high, low]
}

impl ToPage for u32 {
    ghost bytes_of = { word };

    ghost is_fit = { λ _. true };

    fn put(&self, page: &mut Vec<u8>) -> Result<(), Unwritten> {
        page.extend_from_slice(&self.to_be_bytes())?;
        Ok(())
    }
}
