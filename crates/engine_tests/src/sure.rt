ghost use Rattle.std.specs.Prelude.{◌≡◌, ◌⊎◌, true, Ok};
ghost use Rattle.mj_engine.specs.Run.{Site, site_in};
ghost use Rattle.mj_engine.specs.Top.{is_run};

use mj_engine::james_one;
use mj_io::{SureFiles, SureSink};
use std::alloc::Global;

/// Over files and a sink that never fail, words, a configuration and a table of answers that are taken end with 0, or with 12
/// for want of memory. This is proved, and no test calls it.
pub fn run_surely(alloc: Global, words: &Vec<String>, files: &mut SureFiles) -> u8
    requires words { is_run words.now.items ≡ true }
    requires site { (site : Site) × (site_in files.old ≡ Ok site) }
    ensures { (result ≡ 0) ⊎ (result ≡ 12) }
{
    james_one(alloc, words, files, &mut SureSink)
}
