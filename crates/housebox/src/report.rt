// What is printed.
ghost use Rattle.std.specs.Prelude.{◌≡◌, ◌++◌, IfOk, OnOk, Some, string_bytes};
ghost use Rattle.housebox.specs.Report.{refused_text, send_line, told_of, lamp_text, shown_of};
ghost use Rattle.station.specs.State.{state_of};
ghost use Rattle.station.specs.Events.{did_of};

use crate::hexadecimal::encode;
use message::{Refusal, Unsent};
use node::Mark;
use station::{Outcome, Station, Transmission};
use std::alloc::{AllocError, Global};
use std::fmt;
use std::fmt::Write;

// What was turned away: the number of the refusal, and its words.
#[derive(Clone, Copy)]
pub struct Refused(pub Refusal);

impl fmt::Display for Refused {
    ghost output = { λ r. Some (refused_text r.0) };

    fn fmt<W: fmt::Write>(&self, f: &mut fmt::Formatter<W>) -> fmt::Result {
        let refusal = self.0;
        write!(f, "refused {} {refusal}", refusal.number())
    }
}

// The lamp of the line to a neighbour.
#[derive(Clone, Copy)]
struct Lamp {
    neighbour: usize,
    mark: Mark,
}

impl fmt::Display for Lamp {
    ghost output = { λ l. Some (lamp_text l.neighbour l.mark) };

    fn fmt<W: fmt::Write>(&self, f: &mut fmt::Formatter<W>) -> fmt::Result {
        let words = match self.mark {
            Mark::Basic => "wait",
            Mark::Branch => "dig",
            Mark::Rejected => "don't",
        };
        write!(f, "lamp {} {words}", self.neighbour)
    }
}

// The line of what is sent. Its bytes need memory, and a message may have none, so it is no `Display`. Each kind writes
// its own line, since a proof does not know after the match which word was picked in it.
fn put_send(heap: Global, text: &mut String, send: Transmission) -> Result<(), Unsent>
    ensures { OnOk result (string_bytes text.new ≡ string_bytes text.old ++ send_line send) }
{
    match send {
        Transmission::Packet { to, packet } => {
            let bytes = encode(heap, &packet.encode(heap)?)?;
            writeln!(text, "packet {to} {bytes}")?;
        }
        Transmission::Acknowledgement {
            to,
            acknowledgement,
        } => {
            let bytes = encode(heap, &acknowledgement.encode(heap)?)?;
            writeln!(text, "answer {to} {bytes}")?;
        }
    }
    Ok(())
}

// What is told of an event: what was turned away, then what is sent.
pub fn told(heap: Global, outcome: &Outcome) -> Result<String, Unsent>
    ensures { IfOk result (λ s. string_bytes s ≡ told_of (did_of outcome.now)) }
{
    let mut text = String::new(heap);
    for refusal in &outcome.refusals {
        writeln!(text, "{}", Refused(*refusal))?;
    }
    for send in &outcome.sends {
        put_send(heap, &mut text, *send)?;
    }
    Ok(text)
}

// The lamp of each line, in order, and whether all is done.
pub fn shown(heap: Global, station: &Station) -> Result<String, AllocError>
    ensures { IfOk result (λ s. string_bytes s ≡ shown_of (state_of station.now)) }
{
    let mut text = String::new(heap);
    for (link, mark) in station.links.iter().zip(station.node.marks.iter()) {
        let lamp = Lamp {
            neighbour: link.neighbour,
            mark: *mark,
        };
        writeln!(text, "{lamp}")?;
    }
    if station.node.halted {
        text.push_str("done\n")?;
    }
    Ok(text)
}
