// What a command comes to.
ghost use Rattle.housebox.specs.Command.{said_by};
ghost use Rattle.housebox.specs.Reply.{replied_by, reply_of};
ghost use Rattle.station.specs.State.{state_of};
ghost use Rattle.std.specs.Prelude.{◌≡◌, IfOk};

use crate::command::Command;
use crate::report::{Refused, shown};
use message::Refusal;
use station::{Outcome, Station};
use std::alloc::{AllocError, Global};

// Nothing; some lines to print; or an event, whose page has to be kept before anything of it is printed.
#[derive(Drop)]
pub enum Reply {
    Silence,
    Lines(String),
    Event(Outcome),
}

pub fn reply_to(heap: Global, station: &Station, command: Command) -> Result<Reply, AllocError>
    ensures { IfOk result (λ a. replied_by a ≡ reply_of (said_by command) (state_of station.now)) }
{
    Ok(match command {
        Command::Nothing => Reply::Silence,
        Command::Unknown => { Reply::Lines(format!(in heap; "{}\n", Refused(Refusal::Malformed))?) }
        Command::Show => Reply::Lines(shown(heap, station)?),
        Command::Wake => Reply::Event(station.wake(heap)?),
        Command::Packet(it) => Reply::Event(station.receive(heap, it.from, &it.bytes)?),
        Command::Answer(it) => Reply::Event(station.acknowledge(heap, it.from, &it.bytes)?),
    })
}
