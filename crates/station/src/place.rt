// At which place a neighbour's link stands.
ghost use Rattle.std.specs.Prelude.{◌≡◌};
ghost use Rattle.station.specs.State.{state_of, place_of};

use super::state::Station;

impl Station {
    // The place of the link to a neighbour.
    pub fn place_of(&self, neighbour: usize) -> Option<usize>
        ensures { result ≡ place_of (state_of self.now).links neighbour }
    {
        self.links
            .iter()
            .position(|link| link.neighbour == neighbour)
    }
}
