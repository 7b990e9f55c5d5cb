//! A unit's token, and the unit at its seat.
ghost use Rattle.std.specs.Prelude.{◌≡◌, [], ◌∷◌};
ghost use Rattle.sift_ether.specs.Deeds.{AreNoted};
ghost use Rattle.sift_ether.specs.TableSeats.{chronicle_of};
ghost use Rattle.sift_buffer.specs.Journals.{IsJournalOf};

use crate::rule::TableSeat;
use crate::steps::Reach;
use sift_base::UnitId;
use sift_buffer::{Acts, Grid};

/// A unit's right to its seat, with the memory of its acts, which note all that the table knows of
/// the unit but its strays. It may be sent to another thread.
#[derive(Drop)]
pub struct Token {
    pub(crate) seat: TableSeat,
    pub(crate) unit: UnitId,
    pub(crate) acts: Acts,
    ghost sits: { seat.me ≡ (chronicle_of seat.me ∷ [], []) },
    ghost unit_is: { (chronicle_of seat.me).unit ≡ unit },
    ghost owner: { acts.pages.unit ≡ unit },
    ghost noted: { AreNoted acts (chronicle_of seat.me) },
}

/// A unit at its seat. Each call is one atomic load or store of a shared word, or a round of such
/// loads and one store. It waits for nobody, and takes no memory.
#[derive(Drop)]
pub struct EtherSeat<'a> {
    pub(crate) reach: Reach<'a>,
    pub(crate) grid: Grid,
    pub(crate) unit: UnitId,
    pub(crate) acts: Acts,
    ghost key: { reach.words.now.key ≡ grid },
    ghost unit_is: { (chronicle_of reach.seat.me).unit ≡ unit },
    ghost owner: { IsJournalOf acts.pages grid.layout unit grid.frames },
    ghost noted: { AreNoted acts (chronicle_of reach.seat.me) },
}
