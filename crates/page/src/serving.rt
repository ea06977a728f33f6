// Whose page it is.
ghost use Rattle.std.specs.Prelude.{◌≡◌, ◌≤◌, length};
ghost use Rattle.link.specs.Ends.{end_of};
ghost use Rattle.station.specs.State.{state_of};
ghost use Rattle.page.specs.Serving.{is_line, lines_below, serves};

use graph::edge::Neighbour;
use link::Link;
use station::Station;

// The most lines that a station can have.
const LINES: usize = 16;

// Does a link lead to this neighbour, and is its weight that of the line?
fn is_line(link: &Link, weight: u32, neighbour: Neighbour) -> bool
    ensures { result ≡ is_line (end_of link.now) weight neighbour }
{
    link.neighbour == neighbour.node && weight == neighbour.weight
}

// Is each line as it should be? Of links and neighbours there are as many.
fn lines(station: &Station, neighbours: &[Neighbour]) -> bool
    requires links { length station.now.links.items ≡ length neighbours.now }
    requires few { length neighbours.now ≤ 16 }
    ensures { result ≡ lines_below (state_of station.now) neighbours.now (length neighbours.now) }
{
    let links = station.links.iter().zip(&station.node.weights);
    links.zip(neighbours).all(|((link, weight), neighbour)| is_line(link, *weight, *neighbour))
}

// Is it the station of this number, with a line to each of these neighbours, in order, and no other?
pub fn serves(station: &Station, number: usize, neighbours: &[Neighbour]) -> bool
    ensures { result ≡ serves (state_of station.now) number neighbours.now }
{
    let count = neighbours.len();
    station.number == number
        && station.node.edges == count
        && station.links.len() == count
        && count <= LINES
        && lines(station, neighbours)
}
