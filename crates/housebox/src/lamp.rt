// The file `lamp`, where the page stands.
use std::fs::File;
use std::io::{ErrorKind, Read, Write};
use std::{fs, io};

const PAGE: &str = "lamp";

// Where the next page is written, before it takes the place of the last.
const NEXT: &str = "lamp.new";

const FOLDER: &str = ".";

fn sync_folder(rt: &HostRuntime) -> io::Result<()> {
    File::open(rt, FOLDER)?.sync_all()
}

// The page, or none where there is no such file. A box that was killed may have left it renamed and not yet synced;
// what is read is told to others, so it has to last first.
pub fn open(rt: &HostRuntime) -> io::Result<Option<Vec<u8>>> {
    let mut file = match File::open(rt, PAGE) {
        Err(e) if e.kind() == ErrorKind::NotFound => return Ok(None),
        opened => opened?,
    };
    let mut page = Vec::new(rt.alloc());
    file.read_to_end(&mut page)?;
    file.sync_all()?;
    sync_folder(rt)?;
    Ok(Some(page))
}

// The new page is written beside the old one, so that at every moment one of the two is whole.
pub fn keep(rt: &HostRuntime, page: &[u8]) -> io::Result<()> {
    let mut file = File::create(rt, NEXT)?;
    file.write_all(page)?;
    file.sync_all()?;
    fs::rename(rt, NEXT, PAGE)?;
    sync_folder(rt)
}
