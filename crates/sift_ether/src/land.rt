//! The landing: all tokens come back, and the journals are what is left.
ghost use Rattle.std.specs.Prelude.{◌≡◌, ◌<◌, ◌≤◌, [], ◌∷◌, ◌++◌, map, IfOk, vec_len, vec_capacity};
ghost use Rattle.std.specs.List.{All};
ghost use Rattle.sift_buffer.specs.Ledgers.{HasItsWords};
ghost use Rattle.sift_ether.specs.Tokens.{AreTokensOf, AreAtTable, chronicle_in};
ghost use Rattle.sift_ether.specs.Landed.{HaveLanded};
ghost use Rattle.sift_ether.specs.TableSeats.{ranges_at};
ghost use Rattle.sift_ether.specs.Rule.{IsPartOfLawfulCore};

use crate::ether::Ether;
use crate::rule::{Arrives, SharedWords, TableSeat, Together, WordTable};
use crate::seat::Token;
use sift_base::NoMemory;
use sift_buffer::{Journal, events_keep_the_core_lawful, fresh_is_lawful};
use std::alloc::Global;

impl Ether {
    /// The journals of all units, in order. Want of memory gives up the ether and the tokens.
    pub fn land(self, alloc: Global, tokens: Vec<Token>) -> Result<Vec<Journal>, NoMemory>
        requires { AreTokensOf self tokens.items }
        ensures { IfOk result (λ journals. HaveLanded self.grid.layout self.grid.frames tokens.items journals.items) }
    {
        let room = Vec::with_capacity(alloc, tokens.len())?;
        let Ether { table, grid: _ } = self;
        let (head, journals) = join_all(&table.shared, tokens, room);
        close(table, head);
        Ok(journals)
    }
}

/// A head seat that stands for the units of all tokens, and their journals, in a list that has room
/// for them.
fn join_all(
    words: &SharedWords,
    tokens: Vec<Token>,
    empty: Vec<Journal>,
) -> (TableSeat, Vec<Journal>)
    requires wide { 0 < words.now.table_id.words }
    requires tokens { AreAtTable words.now.table_id tokens.items }
    requires empty { empty.items ≡ [] }
    requires room { vec_len tokens ≤ vec_capacity empty }
    ensures table { result.0.table_id ≡ words.now.table_id }
    ensures head { result.0.me ≡ (map chronicle_in tokens.items, []) }
    ensures journals { result.1.items ≡ map (λ t. t.acts.pages) tokens.items }
    ensures told { All (λ t. HasItsWords t.acts) tokens.items }
{
    let mut head = new_head(words);
    let mut journals = empty;
    for token in tokens {
        journals.push_reserved(join_one(words, &mut head, token));
    }
    (head, journals)
}

/// Gives one token's unit back to the head seat, and answers its journal.
fn join_one(words: &SharedWords, head: &mut TableSeat, token: Token) -> Journal
    requires head { head.old.table_id ≡ words.now.table_id }
    requires wide { 0 < words.now.table_id.words }
    requires token { token.seat.table_id ≡ words.now.table_id }
    ensures table { head.new.table_id ≡ head.old.table_id }
    ensures head { head.new.me ≡ (head.old.me.0 ++ chronicle_in token ∷ [], head.old.me.1) }
    ensures journal { result ≡ token.acts.pages }
    ensures told { HasItsWords token.acts }
{
    let Token {
        seat,
        unit: _,
        acts,
    } = token;
    join_back(words, head, seat);
    acts.end()
}

/// A head seat anew, which stands for no unit. It is one load of word 0.
fn new_head(words: &SharedWords) -> TableSeat
    requires { 0 < words.now.table_id.words }
    ensures table { result.table_id ≡ words.now.table_id }
    ensures seat { result.me ≡ ([], []) }
{
    let (_, head) = words.load_new_seat::<Arrives>(0);
    head
}

/// Gives a seat's unit back to the head seat. It is one load of word 0.
fn join_back(words: &SharedWords, head: &mut TableSeat, seat: TableSeat)
    requires head { head.old.table_id ≡ words.now.table_id }
    requires wide { 0 < words.now.table_id.words }
    requires seat { (seat.table_id ≡ words.now.table_id) × (seat.me.1 ≡ []) }
    ensures { (head.new.table_id ≡ head.old.table_id) × (head.new.me ≡ (head.old.me.0 ++ seat.me.0, head.old.me.1)) }
{
    words.join_seat::<Together>(head, seat);
}

/// Ends the table. What the head seat knows is part of a lawful core.
fn close(table: WordTable, head: TableSeat)
    requires head { head.table_id ≡ table.shared.table_id }
    requires slots { table.shared.table_id.slots ≡ 0 }
    ensures { IsPartOfLawfulCore (ranges_at table.shared.key) head.me.0 }
{
    fresh_is_lawful();
    events_keep_the_core_lawful();
    let closed = table.close_with(head);
    closed.free();
}
