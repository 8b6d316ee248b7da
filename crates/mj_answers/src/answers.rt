//! The table.
ghost use Rattle.std.specs.Prelude.{◌≡◌, ◌↔◌, [], true, length, position, find, IfOk, IsTrue, OnOk, Some, if◌then◌else◌};
ghost use Rattle.std.specs.List.{list_all};
ghost use Rattle.std.specs.Option.{option_copied};
ghost use Rattle.indexmap.specs.IndexMap.{get};
ghost use Rattle.mj_mail.specs.Reply.{is_reply};
ghost use Rattle.mj_answers.specs.Fitting.{fits, reply_for, taken};
ghost use Rattle.mj_answers.specs.Places.{HasFirstPlaces, earlier, has_reply, is_at, is_for_attempt, is_for_recipient, keys_asked, same_keys};
ghost use Rattle.mj_answers.specs.Reading.{Gives, answers_of};

use crate::fault::AnswersFault;
use crate::keys::{Asked, Keys};
use crate::read::rows_of_file;
use crate::row::Row;
use indexmap::IndexMap;
use mj_address::{Address, Domain};
use mj_fields::{Bytes, Items, Memory};
use mj_mail::Reply;
use std::alloc::Global;
use std::marker::Model;

/// The table of answers. Contracts see it as the list of its rows; the first row that fits is found by hash, at the cost of
/// eight look-ups whatever the number of rows.
#[derive(Debug, Drop)]
pub struct Answers {
    rows: Items<Row>,
    places: IndexMap<Keys, usize>,
    /// What is answered where no row fits.
    otherwise: Reply,
}

impl Model for Answers {
    ghost use Rattle.std.specs.Prelude.{◌≡◌, true, List};
    ghost use Rattle.std.specs.List.{list_all};
    ghost use Rattle.mj_answers.specs.declared.row.Row.{Row};
    ghost use Rattle.mj_answers.specs.Fitting.{taken};
    ghost use Rattle.mj_answers.specs.Places.{HasFirstPlaces, has_reply};

    ghost Value = { List Row };

    ghost view = { λ answers. answers.rows };

    ghost invariant = { λ answers. HasFirstPlaces answers.rows answers.places
        × (answers.otherwise ≡ taken) × (list_all has_reply answers.rows ≡ true) };
}

impl Answers {
    /// The table of a file, or its first fault. The bytes are those of the file, or the first 1,048,577 of them. The fault is
    /// `TooLarge` for more than [`MAX_ANSWERS`](crate::MAX_ANSWERS) bytes, `NotToml` for bytes that are no TOML document,
    /// `WrongType` where `answer` is no array of tables, and `TooMany` where that has more than 10,000 items; these are in
    /// no row. Then each row is read in its turn, its keys in the order `host`, `recipient`, `attempt`, `reply`: the fault
    /// is `WrongType` for a value of another type, an `attempt` that isn't from 1 to 1,000 or a missing `reply`, and else
    /// `BadHost`, `BadAddress` or `BadReply`. A missing `answer` has no rows.
    pub fn read(alloc: Global, bytes: &[u8]) -> Result<Answers, AnswersFault>
        ensures exact { Gives result (answers_of bytes.now) }
        ensures formed { IfOk result (λ answers. list_all has_reply answers ≡ true) }
    {
        let rows = rows_of_file(alloc, bytes)?;
        Ok(Answers::new(alloc, rows)?)
    }

    /// The table without rows, by which each host takes each mail.
    pub fn empty(alloc: Global) -> Result<Answers, Memory>
        ensures { IfOk result (λ answers. answers ≡ []) }
    {
        Answers::new(alloc, Items::new(alloc))
    }

    /// The table of these rows, which are moved; their keys are copied.
    fn new(alloc: Global, rows: Items<Row>) -> Result<Answers, Memory>
        requires { list_all has_reply rows ≡ true }
        ensures { IfOk result (λ answers. answers ≡ rows) }
    {
        let places = first_places(alloc, rows.as_slice())?;
        let otherwise = taken(alloc)?;
        Ok(Answers {
            rows,
            places,
            otherwise,
        })
    }

    /// What a host answers at this attempt, counted from 1, to send it a mail for this recipient: the reply of the first
    /// row that fits, and else `250 OK`. Host and recipient are compared without regard to ASCII case. It takes no memory.
    pub fn reply_for(&self, host: &Domain, recipient: &Address, attempt: u32) -> &Reply
        ensures exact { result.now ≡ reply_for self.now host.now recipient.now attempt }
        ensures form { is_reply result.now ≡ true }
    {
        match self.row_for(host, recipient, attempt) {
            Some(row) => &row.reply,
            None => &self.otherwise,
        }
    }

    /// The first row that fits; `None` exactly where none does.
    fn row_for(&self, host: &Domain, recipient: &Address, attempt: u32) -> Option<&Row>
        ensures { option_copied result ≡ find (fits host.now recipient.now attempt) self.now }
    {
        let place = self.place_for(host, recipient, attempt)?;
        self.rows.get(place)
    }

    /// The place of the first row that fits.
    #[tactic(auto, using(crate::proofs::FirstPlaces::place_that_fits))]
    fn place_for(&self, host: &Domain, recipient: &Address, attempt: u32) -> Option<usize>
        ensures { result ≡ position (fits host.now recipient.now attempt) self.now }
    {
        earlier(
            self.place_at_host(Some(host), recipient, attempt),
            self.place_at_host(None, recipient, attempt),
        )
    }

    /// The place of the first row with this host or none, as asked, that is for this recipient and attempt, or for any.
    fn place_at_host(
        &self,
        host: Option<&Domain>,
        recipient: &Address,
        attempt: u32,
    ) -> Option<usize>
        ensures { result ≡ position (is_for_recipient (option_copied host.entry) recipient.now attempt) self.now }
    {
        earlier(
            self.place_of_both(host, Some(recipient), attempt),
            self.place_of_both(host, None, attempt),
        )
    }

    /// The place of the first row with this host or none and this recipient or none, as asked, that is for this attempt
    /// or for any.
    fn place_of_both(
        &self,
        host: Option<&Domain>,
        recipient: Option<&Address>,
        attempt: u32,
    ) -> Option<usize>
        ensures { result ≡ position (is_for_attempt (option_copied host.entry) (option_copied recipient.entry) attempt) self.now }
    {
        let numbered = self.place(Asked {
            host,
            recipient,
            attempt: Some(attempt),
        });
        let of_any = self.place(Asked {
            host,
            recipient,
            attempt: None,
        });
        earlier(numbered, of_any)
    }

    /// The place of the first row with exactly these keys, counted from 0.
    fn place(&self, asked: Asked<'_>) -> Option<usize>
        ensures { result ≡ position (is_at (keys_asked asked.entry)) self.now }
    {
        self.places.get(asked).copied()
    }

    /// The rows, in their order.
    pub fn as_slice(&self) -> &[Row]
        ensures rows { result.now ≡ self.now }
        ensures formed { list_all has_reply self.now ≡ true }
    {
        self.rows.as_slice()
    }

    /// How many rows there are.
    pub fn len(&self) -> usize
        ensures { result ≡ length self.now }
    {
        self.rows.len()
    }

    /// Whether there are no rows.
    pub fn is_empty(&self) -> bool
        ensures { IsTrue result ↔ (self.now ≡ []) }
    {
        self.rows.is_empty()
    }
}

/// The places of the first rows with the same keys. The last row is put first, so that of such rows the first one stays.
fn first_places(alloc: Global, rows: &[Row]) -> Result<IndexMap<Keys, usize>, Memory>
    ensures { IfOk result (λ places. HasFirstPlaces rows.now places) }
{
    let mut places = IndexMap::new(alloc);
    for place in (0..rows.len()).rev() {
        put_place(alloc, &mut places, &rows[place], place)?;
    }
    Ok(places)
}

/// Puts the place of a row, instead of one that was put for the same keys.
fn put_place(
    alloc: Global,
    places: &mut IndexMap<Keys, usize>,
    row: &Row,
    place: usize,
) -> Result<(), Memory>
    ensures { OnOk result ((wanted : _) → get same_keys places.new wanted
        ≡ (if is_at wanted row.now then Some place else get same_keys places.old wanted)) }
{
    places.insert(Keys::of_row(alloc, row)?, place)?;
    Ok(())
}

/// What a host answers where no row fits.
fn taken(alloc: Global) -> Result<Reply, Memory>
    ensures { IfOk result (λ reply. reply ≡ taken) }
{
    Ok(Reply {
        code: 250,
        text: Bytes::from_slice(alloc, b"OK")?,
    })
}

/// The lesser of two places, or the one that is there.
fn earlier(a: Option<usize>, b: Option<usize>) -> Option<usize>
    ensures { result ≡ earlier a b }
{
    match (a, b) {
        (Some(a), Some(b)) => Some(a.min(b)),
        (a, b) => a.or(b),
    }
}
