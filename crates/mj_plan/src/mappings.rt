//! The rows of the rewrite table, found by hash.
ghost use Rattle.std.specs.Prelude.{◌≡◌, ◌↔◌, Some, [], length, if◌then◌else◌, IsTrue, IfOk, OnOk};
ghost use Rattle.std.specs.Option.{option_copied};
ghost use Rattle.indexmap.specs.IndexMap.{get};
ghost use Rattle.mj_terms.specs.Text.{same_text};
ghost use Rattle.mj_address.specs.Same.{same_address};
ghost use Rattle.mj_plan.specs.Places.{HasFirstPlaces, earlier, is_from_address, is_from_domain};
ghost use Rattle.mj_plan.specs.Rewriting.{mapping_of};

use crate::plan::Mapping;
use indexmap::IndexMap;
use mj_address::{Address, Domain};
use mj_fields::{Items, Memory};
use std::alloc::Global;
use std::marker::Model;

/// The rows of the rewrite table, in their order. Contracts see them as the list of the rows; the first row that
/// fits an address is found by hash, at the cost of two look-ups whatever the number of rows.
#[derive(Debug, Drop)]
pub struct Mappings {
    rows: Items<Mapping>,
    places: Places,
}

impl Model for Mappings {
    ghost use Rattle.std.specs.Prelude.{List};
    ghost use Rattle.mj_terms.specs.Text.{same_text};
    ghost use Rattle.mj_address.specs.Same.{same_address};
    ghost use Rattle.mj_plan.specs.declared.plan.Mapping.{Mapping};
    ghost use Rattle.mj_plan.specs.Places.{HasFirstPlaces, is_from_address, is_from_domain};

    ghost Value = { List Mapping };

    ghost view = { λ mappings. mappings.rows };

    ghost invariant = { λ mappings. HasFirstPlaces same_address is_from_address mappings.rows mappings.places.by_address
        × HasFirstPlaces same_text is_from_domain mappings.rows mappings.places.by_domain };
}

impl Mappings {
    /// The table of these rows, which are moved; what they are from is copied. It fails where there is no room for
    /// the copies.
    pub fn new(alloc: Global, rows: Items<Mapping>) -> Result<Mappings, Memory>
        ensures { IfOk result (λ mappings. mappings ≡ rows) }
    {
        let places = Places::of_rows(alloc, rows.as_slice())?;
        Ok(Mappings { rows, places })
    }

    /// The first row that is from this address or from its domain, without regard to ASCII case; `None` exactly
    /// where no row is. It takes no memory.
    pub fn of(&self, address: &Address) -> Option<&Mapping>
        ensures { option_copied result ≡ mapping_of address.now self.now }
    {
        let by_address = self.places.by_address.get(address).copied();
        let by_domain = self.places.by_domain.get(address.domain()).copied();
        let place = earlier(by_address, by_domain)?;
        self.rows.get(place)
    }

    /// The rows, in their order.
    pub fn as_slice(&self) -> &[Mapping]
        ensures { result.now ≡ self.now }
    {
        self.rows.as_slice()
    }

    /// How many rows there are.
    pub fn len(&self) -> usize
        ensures { result ≡ length self.now }
    {
        self.rows.len()
    }

    /// Whether there are no rows.
    pub fn is_empty(&self) -> bool
        ensures { IsTrue result ↔ (self.now ≡ []) }
    {
        self.rows.is_empty()
    }
}

/// The places of the first rows from each address and from each domain, counted from 0.
#[derive(Debug, Drop)]
struct Places {
    by_address: IndexMap<Address, usize>,
    by_domain: IndexMap<Domain, usize>,
}

impl Places {
    /// The places of these rows. The last row is put first, so that of rows from the same address or domain the
    /// first one stays.
    fn of_rows(alloc: Global, rows: &[Mapping]) -> Result<Places, Memory>
        ensures addresses { IfOk result (λ places. HasFirstPlaces same_address is_from_address rows.now places.by_address) }
        ensures domains { IfOk result (λ places. HasFirstPlaces same_text is_from_domain rows.now places.by_domain) }
    {
        let mut places = Places {
            by_address: IndexMap::new(alloc),
            by_domain: IndexMap::new(alloc),
        };
        for place in (0..rows.len()).rev() {
            places.put(alloc, &rows[place], place)?;
        }
        Ok(places)
    }

    /// Puts the place of a row, instead of one that was put for the same address or domain.
    fn put(&mut self, alloc: Global, row: &Mapping, place: usize) -> Result<(), Memory>
        ensures addresses { OnOk result ((address : _) → get same_address self.new.by_address address
            ≡ (if is_from_address address row.now then Some place else get same_address self.old.by_address address)) }
        ensures domains { OnOk result ((domain : _) → get same_text self.new.by_domain domain
            ≡ (if is_from_domain domain row.now then Some place else get same_text self.old.by_domain domain)) }
    {
        match row {
            Mapping::Addresses { from, .. } | Mapping::Error { from, .. } => {
                self.by_address.insert(from.copy(alloc)?, place)?;
            }
            Mapping::Host { from, .. } => {
                self.by_domain.insert(from.copy(alloc)?, place)?;
            }
        }
        Ok(())
    }
}

/// The lesser of two places, or the one that is there.
fn earlier(a: Option<usize>, b: Option<usize>) -> Option<usize>
    ensures { result ≡ earlier a b }
{
    match (a, b) {
        (Some(a), Some(b)) => Some(a.min(b)),
        (a, b) => a.or(b),
    }
}
