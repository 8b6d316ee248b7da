//! The reading of a file of answers.
ghost use Rattle.std.specs.Prelude.{◌≡◌, ◌≤◌, true, length, map, Some, option_map, codes, IfOk};
ghost use Rattle.std.specs.List.{list_all};
ghost use Rattle.toml.specs.View.{view, table_view, items_view};
ghost use Rattle.toml.specs.Data.{array, get_member, integer};
ghost use Rattle.mj_terms.specs.Answers.{GivesBy};
ghost use Rattle.mj_mail.specs.Reply.{is_reply};
ghost use Rattle.mj_answers.specs.Places.{has_reply};
ghost use Rattle.mj_answers.specs.Reading.{Gives, PartGives, PartGivesBy, answers_of, attempt_value, document, host_value, located, told, maybe, needed, recipient_value, reply_value, row_of, rows_from, table_of, table_of_text, tables_in, tables_of, text};

use crate::fault::{AnswersFault, AnswersKind, Refusal, fault_at};
use crate::row::Row;
use mj_address::{Address, AddressFault, Domain};
use mj_fields::Items;
use mj_mail::{Reply, ReplyFault};
use std::alloc::Global;
use toml::{Table, Value};

/// The most bytes that a file of answers may have.
pub const MAX_ANSWERS: usize = 1_048_576;

/// The most rows that there may be.
const MAX_ROWS: usize = 10_000;

/// The rows of a file, or its first fault.
#[tactic(auto, unfolding(crate::specs::Reading::answers_of))]
pub(crate) fn rows_of_file(alloc: Global, bytes: &[u8]) -> Result<Items<Row>, AnswersFault>
    ensures exact { Gives result (answers_of bytes.now) }
    ensures formed { IfOk result (λ rows. list_all has_reply rows ≡ true) }
{
    if bytes.len() > MAX_ANSWERS {
        return Err(AnswersFault::Refused {
            kind: AnswersKind::TooLarge,
            row: 0,
        });
    }
    rows_of_text(alloc, bytes)
}

#[tactic(auto, using(crate::proofs::Documents::document_read, crate::proofs::Documents::document_refused))]
fn rows_of_text(alloc: Global, bytes: &[u8]) -> Result<Items<Row>, AnswersFault>
    ensures exact { Gives result (table_of_text (document bytes.now)) }
    ensures formed { IfOk result (λ rows. list_all has_reply rows ≡ true) }
{
    match toml::table_from_slice(alloc, bytes) {
        Ok(table) => rows_of_document(alloc, &table),
        Err(e) => {
            if e.is_memory() {
                Err(AnswersFault::Memory)
            } else {
                Err(AnswersFault::Refused {
                    kind: AnswersKind::NotToml,
                    row: 0,
                })
            }
        }
    }
}

fn rows_of_document(alloc: Global, document: &Table) -> Result<Items<Row>, AnswersFault>
    ensures exact { Gives result (table_of (table_view document.now)) }
    ensures formed { IfOk result (λ rows. list_all has_reply rows ≡ true) }
{
    match tables(alloc, value_at(document, "answer")) {
        Ok(tables) => rows_of_tables(alloc, tables.as_slice()),
        Err(refusal) => Err(fault_at(refusal, 0)),
    }
}

/// The value at a key, if there is one.
#[tactic(auto, using(toml::proofs::Views::table_get))]
fn value_at<'a>(table: &'a Table, key: &str) -> Option<&'a Value>
    ensures { option_map (λ v. view v.now) result ≡ get_member key.now (table_view table.now) }
{
    table.get(key)
}

/// The tables of `answer`, of which there are none where it is missing.
fn tables<'a>(alloc: Global, value: Option<&'a Value>) -> Result<Vec<&'a Table>, Refusal>
    ensures exact { PartGivesBy (λ all. map (λ t. table_view t.now) all.items) result
        (tables_of (option_map (λ v. view v.now) value.entry)) }
    ensures few { IfOk result (λ all. length all.items ≤ 10_000) }
{
    match value {
        None => Ok(Vec::new(alloc)),
        Some(Value::Array(values)) => few_tables(alloc, values.as_slice()),
        Some(_) => Err(Refusal::Kind(AnswersKind::WrongType)),
    }
}

#[tactic(auto, using(crate::proofs::InTurn::items_count))]
fn few_tables<'a>(alloc: Global, values: &'a [Value]) -> Result<Vec<&'a Table>, Refusal>
    ensures exact { PartGivesBy (λ all. map (λ t. table_view t.now) all.items) result (tables_of (Some (array (items_view values.now)))) }
    ensures few { IfOk result (λ all. length all.items ≤ 10_000) }
{
    if values.len() > MAX_ROWS {
        return Err(Refusal::Kind(AnswersKind::TooMany));
    }
    tables_in(alloc, values)
}

fn tables_in<'a>(alloc: Global, values: &'a [Value]) -> Result<Vec<&'a Table>, Refusal>
    ensures exact { PartGivesBy (λ all. map (λ t. table_view t.now) all.items) result (tables_in (items_view values.now)) }
    ensures count { IfOk result (λ all. length all.items ≡ length values.now) }
{
    let mut tables = Vec::new(alloc);
    for value in values {
        match value {
            Value::Table(table) => tables.push(table)?,
            _ => return Err(Refusal::Kind(AnswersKind::WrongType)),
        }
    }
    Ok(tables)
}

/// The rows of these tables, numbered from 1.
fn rows_of_tables(alloc: Global, tables: &[&Table]) -> Result<Items<Row>, AnswersFault>
    requires { length tables.now ≤ 10_000 }
    ensures exact { Gives result (rows_from 1 (map (λ t. table_view t.now) tables.now)) }
    ensures formed { IfOk result (λ rows. list_all has_reply rows ≡ true) }
{
    let mut rows = Items::new(alloc);
    for table in tables {
        let number = rows.len() as u32 + 1;
        rows.push(row_at(alloc, number, table)?)?;
    }
    Ok(rows)
}

/// The row of this number.
fn row_at(alloc: Global, number: u32, table: &Table) -> Result<Row, AnswersFault>
    ensures exact { GivesBy told (λ x. x) result (located number (row_of (table_view table.now))) }
    ensures formed { IfOk result (λ row. has_reply row ≡ true) }
{
    match row(alloc, table) {
        Ok(row) => Ok(row),
        Err(refusal) => Err(fault_at(refusal, number)),
    }
}

/// What the keys of a row say, in their order.
fn row(alloc: Global, table: &Table) -> Result<Row, Refusal>
    ensures exact { PartGives result (row_of (table_view table.now)) }
    ensures formed { IfOk result (λ row. has_reply row ≡ true) }
{
    let host = host(alloc, value_at(table, "host"))?;
    let recipient = recipient(alloc, value_at(table, "recipient"))?;
    let attempt = attempt(value_at(table, "attempt"))?;
    let reply = reply(alloc, value_at(table, "reply"))?;
    Ok(Row {
        host,
        recipient,
        attempt,
        reply,
    })
}

fn host(alloc: Global, value: Option<&Value>) -> Result<Option<Domain>, Refusal>
    ensures { PartGives result (maybe host_value (option_map (λ v. view v.now) value.entry)) }
{
    let Some(value) = value else {
        return Ok(None);
    };
    match Domain::read(alloc, text(value)?) {
        Ok(host) => Ok(Some(host)),
        Err(AddressFault::Memory) => Err(Refusal::Memory),
        Err(_) => Err(Refusal::Kind(AnswersKind::BadHost)),
    }
}

fn recipient(alloc: Global, value: Option<&Value>) -> Result<Option<Address>, Refusal>
    ensures { PartGives result (maybe recipient_value (option_map (λ v. view v.now) value.entry)) }
{
    let Some(value) = value else {
        return Ok(None);
    };
    match Address::read(alloc, text(value)?) {
        Ok(recipient) => Ok(Some(recipient)),
        Err(AddressFault::Memory) => Err(Refusal::Memory),
        Err(_) => Err(Refusal::Kind(AnswersKind::BadAddress)),
    }
}

/// An integer from 1 to 1,000.
fn attempt(value: Option<&Value>) -> Result<Option<u32>, Refusal>
    ensures { PartGives result (maybe attempt_value (option_map (λ v. view v.now) value.entry)) }
{
    match value {
        None => Ok(None),
        Some(Value::Integer(number)) => in_range(*number),
        Some(_) => Err(Refusal::Kind(AnswersKind::WrongType)),
    }
}

fn in_range(number: i64) -> Result<Option<u32>, Refusal>
    ensures { PartGives result (maybe attempt_value (Some (integer number))) }
{
    if number < 1 || number > 1_000 {
        return Err(Refusal::Kind(AnswersKind::WrongType));
    }
    Ok(Some(number as u32))
}

fn reply(alloc: Global, value: Option<&Value>) -> Result<Reply, Refusal>
    ensures exact { PartGives result (needed reply_value (option_map (λ v. view v.now) value.entry)) }
    ensures form { IfOk result (λ reply. is_reply reply ≡ true) }
{
    let Some(value) = value else {
        return Err(Refusal::Kind(AnswersKind::WrongType));
    };
    match Reply::read(alloc, text(value)?) {
        Ok(reply) => Ok(reply),
        Err(ReplyFault::Memory) => Err(Refusal::Memory),
        Err(ReplyFault::BadReply) => Err(Refusal::Kind(AnswersKind::BadReply)),
    }
}

/// The value as a text. Any other value is `WrongType`.
fn text(value: &Value) -> Result<&[u8], Refusal>
    ensures { PartGivesBy (λ s. s.now) result (text (view value.now)) }
{
    match value {
        Value::String(text) => Ok(text.as_bytes()),
        _ => Err(Refusal::Kind(AnswersKind::WrongType)),
    }
}
