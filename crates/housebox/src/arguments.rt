// The words behind the program's name: `I J:L J:L ..`.
ghost use Rattle.std.specs.Prelude.{◌≡◌, map, position, IfOk, vec_items, string_bytes};
ghost use Rattle.housebox.specs.Arguments.{is_colon, neighbour_of, neighbours_of, given_by, given_of};
ghost use Rattle.std.specs.Option.{option_map};

use graph::edge::Neighbour;
use graph::text::number;
use std::alloc::{AllocError, Global};

// The house's own number, and its lines in the order in which it looks at them.
#[derive(Drop)]
pub struct Arguments {
    pub number: usize,
    pub neighbours: Vec<Neighbour>,
}

// Where the first colon stands. No `split_once`: that is of a `&str`, and a word is any bytes.
fn colon_of(word: &[u8]) -> Option<usize>
    ensures { result ≡ position is_colon word.now }
{
    word.iter().position(|b| *b == b':')
}

// `J:L`: a neighbour and the length of the line to it.
pub fn neighbour_of(word: &[u8]) -> Option<Neighbour>
    ensures { result ≡ neighbour_of word.now }
{
    let colon = colon_of(word)?;
    let (node, weight) = (&word[..colon], &word[colon + 1..]);
    Some(Neighbour {
        node: number(node)? as usize,
        weight: number(weight)?,
    })
}

// All of them, in order; none where one word is no `J:L`. A `for`, since of a `collect` into an `Option` the proof lacks
// that it fails where an item fails.
pub fn neighbours_of(heap: Global, words: &[String]) -> Result<Option<Vec<Neighbour>>, AllocError>
    ensures { IfOk result (λ o. option_map vec_items o ≡ neighbours_of (map string_bytes words.now)) }
{
    let mut neighbours = Vec::new(heap);
    for word in words {
        let Some(neighbour) = neighbour_of(word.as_bytes()) else {
            return Ok(None);
        };
        neighbours.push(neighbour)?;
    }
    Ok(Some(neighbours))
}

// The first word and the others; none where they are not of that form.
pub fn arguments_of(
    heap: Global,
    first: &[u8],
    others: &[String],
) -> Result<Option<Arguments>, AllocError>
    ensures { IfOk result (λ o. option_map given_by o ≡ given_of first.now (map string_bytes others.now)) }
{
    let Some(own) = number(first) else {
        return Ok(None);
    };
    Ok(neighbours_of(heap, others)?.map(|neighbours| Arguments {
        number: own as usize,
        neighbours,
    }))
}
