//! The plain memory of all units.
ghost use Rattle.std.specs.Prelude.{◌≡◌, ◌<◌, length};
ghost use Rattle.sift_buffer.specs.Ranges.{shared_words};
ghost use Rattle.sift_buffer.specs.Tables.{ranges_of};
ghost use Rattle.sift_buffer.specs.Crews.{AreOwned};

use crate::acts::Acts;
use crate::grid::Grid;
use sift_base::UnitId;

/// The shared words, and of each unit its acts, its count of looks and its last look. It is the port of one unit at a time.
#[derive(Drop)]
pub struct Rack {
    pub(crate) grid: Grid,
    pub(crate) unit: UnitId,
    pub(crate) words: Vec<u64>,
    pub(crate) acts: Vec<Acts>,
    pub(crate) looks: [u64; 8],
    pub(crate) last_units: [u8; 8],
    pub(crate) last_numbers: [u64; 8],
    ghost here: { unit < grid.layout.units },
    ghost wide: { length words.items ≡ shared_words (ranges_of grid.layout grid.frames) },
    ghost crew: { length acts.items ≡ grid.layout.units },
    ghost owned: { AreOwned acts.items grid.layout grid.frames },
}
