// The bytes of a node, and back: its own fields in sixteen, and then those of its edges.
ghost use Rattle.std.specs.Prelude.{◌≡◌, true, [], ◌∷◌, map};
ghost use Rattle.message.specs.Bytes.{weight_or_zero};
ghost use Rattle.node.specs.Rules.{best_weight};
ghost use Rattle.node.specs.declared.state.Node.{Node};
ghost use Rattle.page.specs.Page.{status_byte, mark_byte, place_byte, place_fits, field_bytes, node_bytes, node_fits, Appended};
ghost use Rattle.page.specs.Reading.{status_of, mark_of, place_of, best_of, words_of, node_front, viewed};

use super::from_page::{FromPage, Reader};
use super::to_page::{ToPage, put_all};
use super::{Unread, Unwritten};
use node::{Best, Mark, Node, Status};
use std::array;

// Which bytes stand for statuses, marks and places is the page's matter, and the types are another crate's: here and
// below there is no `From` of them.
fn status_byte(status: Status) -> u8
    ensures { result ≡ status_byte status }
{
    status as u8
}

impl ToPage for Mark {
    ghost bytes_of = { λ m. mark_byte m ∷ [] };

    ghost is_fit = { λ _. true };

    fn put(&self, page: &mut Vec<u8>) -> Result<(), Unwritten> {
        page.push(*self as u8)?;
        Ok(())
    }
}

// Has a place a byte?
fn place_fits(place: Option<usize>) -> bool
    ensures { result ≡ place_fits place }
{
    place.is_none_or(|place| place < 255)
}

// From 1 on, so that 0 can stand for none.
fn place_byte(place: Option<usize>) -> u8
    requires { place_fits place ≡ true }
    ensures { result ≡ place_byte place }
{
    place.map_or(0, |place| place as u8 + 1)
}

// Has each field its byte?
pub(crate) fn node_fits(node: Node) -> bool
    ensures { result ≡ node_fits node }
{
    node.edges <= 16
        && place_fits(node.parent)
        && place_fits(node.best.edge())
        && place_fits(node.testing)
}

// What a node holds of itself.
fn put_fields(node: Node, page: &mut Vec<u8>) -> Result<(), Unwritten>
    ensures { Appended (field_bytes node) (node_fits node) page.old page.new result }
{
    if !node_fits(node) {
        return Err(Unwritten::Full);
    }
    let parent = place_byte(node.parent);
    let best = place_byte(node.best.edge());
    page.extend_from_slice(&[status_byte(node.status), node.edges as u8, node.level])?;
    node.name.put(page)?;
    page.extend_from_slice(&[node.find_count, parent, best])?;
    node.best.weight().unwrap_or(0).put(page)?;
    page.extend_from_slice(&[place_byte(node.testing), u8::from(node.halted)])?;
    Ok(())
}

impl ToPage for Node {
    ghost bytes_of = { node_bytes };

    ghost is_fit = { node_fits };

    #[tactic(auto, using(crate::proofs::Parts::parts))]
    fn put(&self, page: &mut Vec<u8>) -> Result<(), Unwritten> {
        put_fields(*self, page)?;
        put_all(&self.weights, page)?;
        put_all(&self.marks, page)?;
        Ok(())
    }
}

// Any other byte is told from these by the comparison with the page that is written again.
fn status_of(byte: u8) -> Status
    ensures { result ≡ status_of byte }
{
    match byte {
        0 => Status::Sleeping,
        1 => Status::Find,
        _ => Status::Found,
    }
}

fn mark_of(byte: u8) -> Mark
    ensures { result ≡ mark_of byte }
{
    match byte {
        0 => Mark::Basic,
        1 => Mark::Branch,
        _ => Mark::Rejected,
    }
}

fn place_of(byte: u8) -> Option<usize>
    ensures { result ≡ place_of byte }
{
    Some(usize::from(byte.checked_sub(1)?))
}

fn best_of(byte: u8, weight: u32) -> Best
    ensures { result ≡ best_of byte weight }
{
    place_of(byte).map_or(Best::Nothing, |edge| Best::Over { edge, weight })
}

fn weights_of(bytes: &[u8; 64]) -> [u32; 16]
    ensures { result ≡ words_of 16 bytes.now }
{
    let (words, _) = bytes.as_chunks();
    array::from_fn(|place| u32::from_be_bytes(words[place]))
}

fn marks_of(bytes: &[u8; 16]) -> [Mark; 16]
    ensures { result ≡ map mark_of bytes.now }
{
    bytes.map(mark_of)
}

// The node that the bytes begin with, and what is left of them.
fn node_front(bytes: &[u8]) -> Option<(Node, &[u8])>
    ensures { viewed result ≡ node_front bytes.now }
{
    let [status, edges, level, a, b, c, d, find_count, rest @ ..] = bytes else {
        return None;
    };
    let [parent, best, e, f, g, h, testing, halted, rest @ ..] = rest else {
        return None;
    };
    let (weights, rest) = rest.split_first_chunk()?;
    let (marks, rest) = rest.split_first_chunk()?;
    let node = Node {
        status: status_of(*status),
        edges: usize::from(*edges),
        weights: weights_of(weights),
        marks: marks_of(marks),
        level: *level,
        name: u32::from_be_bytes([*a, *b, *c, *d]),
        find_count: *find_count,
        parent: place_of(*parent),
        best: best_of(*best, u32::from_be_bytes([*e, *f, *g, *h])),
        testing: place_of(*testing),
        halted: *halted == 1,
    };
    Some((node, rest))
}

impl FromPage for Node {
    ghost Value = { Node };

    ghost view = { λ n. n };

    ghost front = { node_front };

    fn read(reader: &mut Reader) -> Result<Node, Unread> {
        let Some((node, rest)) = node_front(reader.left) else {
            return Err(Unread::Foreign);
        };
        reader.left = rest;
        Ok(node)
    }
}
