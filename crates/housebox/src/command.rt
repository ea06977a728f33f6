// What one line of the input says.
ghost use Rattle.housebox.specs.Command.{delivered_by, said_by, carried_of, said_of};
ghost use Rattle.std.specs.Option.{option_map};
ghost use Rattle.std.specs.Prelude.{◌≡◌, IfOk};

use crate::hexadecimal::decode;
use graph::text::{Cursor, number};
use std::alloc::{AllocError, Global};

// Bytes, and the neighbour that they come from.
#[derive(Drop)]
pub struct Delivery {
    pub from: usize,
    pub bytes: Vec<u8>,
}

// `wake`, `packet J HEX`, `answer J HEX` or `show`; a blank line or a comment; or something else.
#[derive(Drop)]
pub enum Command {
    Wake,
    Packet(Delivery),
    Answer(Delivery),
    Show,
    Nothing,
    Unknown,
}

// What stands behind `packet` or `answer`.
fn carried(heap: Global, cursor: &mut Cursor<'_>) -> Result<Option<Delivery>, AllocError>
    ensures { IfOk result (λ o. option_map delivered_by o ≡ carried_of cursor.old.rest.now) }
{
    let from = number(cursor.word());
    let bytes = decode(heap, cursor.word())?;
    let (Some(from), Some(bytes), []) = (from, bytes, cursor.word()) else {
        return Ok(None);
    };
    Ok(Some(Delivery {
        from: from as usize,
        bytes,
    }))
}

// What a line says.
pub fn command_of(heap: Global, line: &[u8]) -> Result<Command, AllocError>
    ensures { IfOk result (λ c. said_by c ≡ said_of line.now) }
{
    let mut cursor = Cursor::new(line);
    let word = cursor.word();
    match word {
        [] | [b'#', ..] => Ok(Command::Nothing),
        b"packet" => Ok(carried(heap, &mut cursor)?.map_or(Command::Unknown, Command::Packet)),
        b"answer" => Ok(carried(heap, &mut cursor)?.map_or(Command::Unknown, Command::Answer)),
        b"wake" if cursor.word().is_empty() => Ok(Command::Wake),
        b"show" if cursor.word().is_empty() => Ok(Command::Show),
        _ => Ok(Command::Unknown),
    }
}
