//! The rule of the table of shared words: what it knows of each unit, and what its steps tell.
ghost use Rattle.sift_ether.specs.Deeds.{blanks_from};
ghost use Rattle.sift_ether.specs.Rule.{HasStory};
ghost use Rattle.sift_ether.specs.TableSeats.{ranges_at, first_of, rest_of, AddsDeed};
ghost use Rattle.std.specs.Prelude.{◌≡◌, [], ◌++◌, ℕ};
ghost use Rattle.sift_ether.specs.declared.rule.Deed.{Deed as TheDeed};
ghost use Rattle.sift_ether.specs.declared.rule.Deed.TheVariants.{Entered as TheEntered};

use atomic_table::{Join, Play, Seat, Shared, Split, Table, TableRule};
use sift_buffer::Grid;
use std::alloc::Global;
use std::collections::LinkedList;
use std::marker::{Brand, PhantomData};

/// One event of a unit, with what it loaded.
pub enum Deed {
    /// The unit loaded this progress number of another.
    Looked {
        unit: u64,
        number: u64,
    },
    /// It stored a word, or absence, in its cell for another unit.
    Said {
        frame: u64,
        slot: u64,
        to: u64,
        stamp: u64,
        word: Option<u64>,
    },
    /// It loaded another unit's cell for it, and took a word, or absence, by a stamp.
    Heard {
        frame: u64,
        slot: u64,
        from: u64,
        stamp: u64,
        word: Option<u64>,
    },
    /// It stored its progress number, raised by one.
    Entered,
    /// It stored the progress number of a unit that has turned.
    Turned,
    /// It stored any number in its cell for another unit, after it had turned.
    Strayed {
        to: u64,
        slot: u64,
        cell: u64,
    },
}

/// A unit and all its deeds, the newest first, and how many deeds of all units were done before each.
pub struct Chronicle {
    pub unit: u64,
    pub deeds: LinkedList<Deed>,
    pub places: LinkedList<u64>,
}

/// What a seat of the table knows: the units for which it stands, and all that they did.
pub type Chronicles = LinkedList<Chronicle>;

/// The shared words, as those see them who step on them. The table has no slots beside its words.
pub type SharedWords = Shared<u8, Chronicles, Grid, IsLawful>;

/// The shared words as their owner has them.
pub type WordTable = Table<u8, Chronicles, Grid, IsLawful, Global>;

/// A seat of the table.
pub type TableSeat = Seat<u8, Chronicles>;

/// The rule: the words are what one story of the deeds of all units made of words that were 0, and each
/// seat knows its units' parts of it. At first one seat stands for all units.
pub struct IsLawful;

impl TableRule<u8, Chronicles, Grid> for IsLawful {
    ghost holds = { λ grid. HasStory (ranges_at grid) };

    ghost first = { λ grid. blanks_from 0 grid.layout.units };
}

/// What a step is told of its call.
pub trait Told {
    /// The deed that the step adds, by the number that it loads or stores.
    ghost deed: { ℕ → TheDeed };
}

/// A deed that the caller picks.
impl Told for Brand {
    ghost deed = { λ _. TheEntered };
}

/// A step that is one deed of the seat's one unit.
pub struct Adds<C> {
    call: PhantomData<C>,
}

impl<C: Told> Play<u8, Chronicles> for Adds<C> {
    ghost then = { λ _ before number after. AddsDeed C.deed before number after };
}

/// The first unit goes to a new seat.
pub struct First;

impl Split<Chronicles> for First {
    ghost left = { rest_of };

    ghost right = { first_of };
}

/// The units of two seats go to the first of them.
pub struct Together;

impl Join<Chronicles> for Together {
    ghost both = { λ view other. view ++ other };

    ghost spent = { [] };
}

/// A new seat stands for no unit.
pub struct Arrives;

impl Play<u8, Chronicles> for Arrives {
    ghost then = { λ _ _ _ after. after.0 ≡ [] };
}
