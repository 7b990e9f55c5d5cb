//! The text of tables, as a document states them.

ghost use Rattle.std.specs.Prelude.{◌≡◌, ◌++◌, [], IfOk, OnOk, if◌then◌else◌, map, nat_eq, string_bytes};
ghost use Rattle.std.specs.List.{flat_map};
ghost use Rattle.std.specs.Fmt.{decimal};
ghost use Rattle.sift_table.specs.Schedule.{schedule_of};
ghost use Rattle.sift_planner.specs.Text.{break, numbers_line, numbers_text, positions_text, rows_line, rows_text, table_text, tables_text};

use sift_base::NoMemory;
use sift_table::Table;
use std::alloc::{AllocError, Global};

/// The text of tables: each begins with a line `[[table]]`, and has a line for its size and for each of
/// its lists of rows. What it sheds has no line: plans shed nothing.
pub fn tables_text(alloc: Global, tables: &[Table]) -> Result<String, NoMemory>
    ensures { IfOk result (λ text. string_bytes text ≡ tables_text (map schedule_of tables.now)) }
{
    let mut text = String::new(alloc);
    for table in tables {
        push_table(&mut text, table)?;
    }
    Ok(text)
}

/// Appends a table.
fn push_table(text: &mut String, table: &Table) -> Result<(), AllocError>
    ensures { OnOk result (string_bytes text.new ≡ string_bytes text.old ++ table_text (schedule_of table.now)) }
{
    let size = table.size;
    writeln!(text, "[[table]]\nsize = {size}")?;
    push_numbers_line(text, "run", &table.run)?;
    push_numbers_line(text, "poll", &table.poll)?;
    push_rows_line(text, &table.at)
}

/// Appends the line of a list of numbers.
fn push_numbers_line(text: &mut String, key: &str, numbers: &[u8]) -> Result<(), AllocError>
    ensures { OnOk result (string_bytes text.new ≡ string_bytes text.old ++ numbers_line key.now numbers.now) }
{
    text.push_str(key)?;
    text.push_str(" = [")?;
    push_numbers(text, numbers)?;
    text.push_str("]\n")
}

/// Appends the line of the positions.
fn push_rows_line(text: &mut String, rows: &[Vec<u8>]) -> Result<(), AllocError>
    ensures { OnOk result (string_bytes text.new
        ≡ string_bytes text.old ++ rows_line (map (λ row. row.items) rows.now)) }
{
    text.push_str("at = [")?;
    push_rows(text, rows)?;
    text.push_str("]\n")
}

/// Appends a list of numbers.
fn push_numbers(text: &mut String, numbers: &[u8]) -> Result<(), AllocError>
    ensures { OnOk result (string_bytes text.new ≡ string_bytes text.old ++ numbers_text numbers.now) }
{
    for (place, number) in numbers.iter().enumerate() {
        push_break(text, place)?;
        write!(text, "{number}")?;
    }
    Ok(())
}

/// Appends the positions of rows.
fn push_rows(text: &mut String, rows: &[Vec<u8>]) -> Result<(), AllocError>
    ensures { OnOk result (string_bytes text.new ≡ string_bytes text.old ++ rows_text (map (λ row. row.items) rows.now)) }
{
    for (place, row) in rows.iter().enumerate() {
        push_break(text, place)?;
        push_positions(text, row)?;
    }
    Ok(())
}

/// Appends the positions of a row.
fn push_positions(text: &mut String, positions: &[u8]) -> Result<(), AllocError>
    ensures { OnOk result (string_bytes text.new ≡ string_bytes text.old ++ positions_text positions.now) }
{
    text.push('"')?;
    for position in positions {
        write!(text, "{position}")?;
    }
    text.push('"')
}

/// Appends what stands before the entry at a place.
fn push_break(text: &mut String, place: usize) -> Result<(), AllocError>
    ensures { OnOk result (string_bytes text.new ≡ string_bytes text.old ++ (if nat_eq place 0 then [] else break)) }
{
    if place == 0 {
        return Ok(());
    }
    text.push_str(", ")
}
