//! The front of a processor's table.
ghost use Rattle.std.specs.Prelude.{◌≤◌, length};

use toml::Table;

/// The name of a processor, and the tables of its steps, of which there are at most 200.
#[derive(Debug, Drop)]
pub(crate) struct Header<'a> {
    pub(crate) name: &'a [u8],
    pub(crate) steps: Vec<&'a Table>,
    ghost few: { length steps.items ≤ 200 },
}
