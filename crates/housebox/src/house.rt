// The box at work: its station, and the page that stands in the file.
use crate::arguments::{Arguments, arguments_of};
use crate::command::command_of;
use crate::lamp;
use crate::reply::{Reply, reply_to};
use crate::step::{Step, Unstepped, step_of};
use crate::trouble::Trouble;
use station::{Outcome, Station};
use std::io;
use std::io::Write;

#[derive(Drop)]
pub struct House {
    station: Station,
    page: Vec<u8>,
}

// Standard output is not buffered, so this is out when it returns.
fn say(rt: &HostRuntime, text: &str) -> io::Result<()> {
    rt.stdout().write_all(text.as_bytes())
}

// A house fresh from the box, which is written at once.
fn fresh(rt: &HostRuntime, station: Station) -> Result<House, Trouble> {
    let page = page::write(rt.alloc(), &station)?;
    lamp::keep(rt, &page).map_err(Trouble::Lamp)?;
    Ok(House { station, page })
}

// A house as its page says.
fn resumed(rt: &HostRuntime, arguments: &Arguments, page: Vec<u8>) -> Result<House, Trouble> {
    let station = page::read(rt.alloc(), &page)?;
    if !page::serves(&station, arguments.number, &arguments.neighbours) {
        return Err(Trouble::Foreign);
    }
    Ok(House { station, page })
}

impl House {
    // The house that these words speak of.
    pub fn open(rt: &HostRuntime, first: &[u8], others: &[String]) -> anyhow::Result<House> {
        let heap = rt.alloc();
        let arguments = arguments_of(heap, first, others)?.ok_or(Trouble::WrongWords)?;
        let station = Station::new(heap, arguments.number, &arguments.neighbours).map_err(
            Trouble::NoStation,
        )?;
        Ok(match lamp::open(rt).map_err(Trouble::Lamp)? {
            Some(page) => resumed(rt, &arguments, page)?,
            None => fresh(rt, station)?,
        })
    }

    // What one line of the input says is done. It may have its end, which says nothing.
    pub fn obey(&mut self, rt: &HostRuntime, line: &[u8]) -> anyhow::Result<()> {
        let heap = rt.alloc();
        let line = line.strip_suffix(b"\n").unwrap_or(line);
        match reply_to(heap, &self.station, command_of(heap, line)?)? {
            Reply::Silence => {}
            Reply::Lines(text) => say(rt, &text)?,
            Reply::Event(outcome) => self.settle(rt, outcome)?,
        }
        Ok(())
    }

    // The page first, then the words. A page that stands there already is not written again, which saves the sync.
    fn settle(&mut self, rt: &HostRuntime, outcome: Outcome) -> anyhow::Result<()> {
        let Step {
            station,
            page,
            words,
        } = match step_of(rt.alloc(), outcome) {
            // An event whose page would not fit has no effect.
            Err(Unstepped::Full) => return Ok(()),
            stepped => stepped.map_err(Trouble::from)?,
        };
        if page.as_slice() != self.page.as_slice() {
            lamp::keep(rt, &page).map_err(Trouble::Lamp)?;
        }
        say(rt, &words)?;
        *self = House { station, page };
        Ok(())
    }
}
