//! A new ether and its tokens.
ghost use Rattle.std.specs.Prelude.{◌≡◌, ◌+◌, ◌-◌, ◌<◌, [], IfOk, replicate};
ghost use Rattle.sift_base.specs.Layout.{IsLayout};
ghost use Rattle.sift_buffer.specs.Conduct.{fresh};
ghost use Rattle.sift_buffer.specs.Ledgers.{Tells};
ghost use Rattle.sift_ether.specs.Deeds.{blank, blanks_from};
ghost use Rattle.sift_ether.specs.TableSeats.{chronicle_of, ranges_at, first_of, rest_of};
ghost use Rattle.sift_ether.specs.Tokens.{IsMade, IsAt};
ghost use Rattle.sift_buffer.specs.Ranges.{shared_words};

use crate::ether::Ether;
use crate::rule::{First, SharedWords, TableSeat, WordTable};
use crate::seat::Token;
use atomic_table::Table;
use sift_base::{Layout, NoMemory, UnitId};
use sift_buffer::{Acts, Grid};
use std::alloc::{AllocError, Global};

impl Ether {
    /// The shared words of a layout's units, on which nothing was done, and a token for each unit, in
    /// order. It takes all memory of their acts.
    pub fn make(alloc: Global, layout: Layout, frames: u32) -> Result<(Ether, Vec<Token>), NoMemory>
        requires { IsLayout layout }
        ensures { IfOk result (λ made. IsMade made.0 made.1.items layout frames) }
    {
        let grid = Grid::of(layout, frames);
        let words = vec![in alloc; 0; grid.shared_words()]?;
        let mut tokens = Vec::with_capacity(alloc, usize::from(layout.units))?;
        let (table, mut head) = open(alloc, words.as_slice(), &grid)?;
        for number in 0..layout.units {
            if let Some(unit) = UnitId::of(number) {
                let acts = Acts::make(alloc, layout, unit, frames)?;
                tokens.push_reserved(deal_next(
                    &table.shared,
                    &mut head,
                    unit,
                    layout,
                    frames,
                    acts,
                ));
            }
        }
        Ok((Ether { table, grid }, tokens))
    }
}

/// The token of the next unit, which the head seat gives away.
fn deal_next(
    words: &SharedWords,
    head: &mut TableSeat,
    unit: UnitId,
    layout: Layout,
    frames: u32,
    acts: Acts,
) -> Token
    requires table { head.old.table_id ≡ words.now.table_id }
    requires wide { 0 < words.now.table_id.words }
    requires unit { unit < layout.units }
    requires left { head.old.me ≡ (blanks_from unit (layout.units - unit), []) }
    requires acts { Tells acts layout unit frames fresh }
    ensures head { (head.new.table_id ≡ head.old.table_id) × (head.new.me ≡ (blanks_from (unit + 1) (layout.units - (unit + 1)), [])) }
    ensures of { IsAt words.now.table_id layout frames result }
    ensures unit { result.unit ≡ unit }
    ensures blank { chronicle_of result.seat.me ≡ blank unit }
{
    let seat = split_first(words, head);
    Token { seat, unit, acts }
}

/// A table whose words are 0, and its head seat, which stands for all units.
fn open(alloc: Global, words: &[u64], grid: &Grid) -> Result<(WordTable, TableSeat), AllocError>
    requires { words.now ≡ replicate (shared_words (ranges_at grid.now)) 0 }
    ensures wide { IfOk result (λ t. t.0.shared.table_id.words ≡ shared_words (ranges_at grid.now)) }
    ensures slots { IfOk result (λ t. t.0.shared.table_id.slots ≡ 0) }
    ensures grid { IfOk result (λ t. t.0.shared.key ≡ grid.now) }
    ensures head { IfOk result (λ t. (t.1.table_id ≡ t.0.shared.table_id) × (t.1.me ≡ (blanks_from 0 grid.now.layout.units, []))) }
{
    Table::of_words(alloc, words, grid)
}

/// A seat of its own for the first unit of the head seat. It is one load of word 0.
fn split_first(words: &SharedWords, head: &mut TableSeat) -> TableSeat
    requires table { head.old.table_id ≡ words.now.table_id }
    requires wide { 0 < words.now.table_id.words }
    ensures head { (head.new.table_id ≡ head.old.table_id) × (head.new.me ≡ (rest_of head.old.me.0, head.old.me.1)) }
    ensures seat { (result.table_id ≡ head.old.table_id) × (result.me ≡ (first_of head.old.me.0, [])) }
{
    words.split_seat::<First>(head)
}
