//! What a list of entries says.
ghost use Rattle.std.specs.Prelude.{◌≡◌, ◌+◌, ◌≤◌, ◌||◌, List, ◌∷◌, length};
ghost use Rattle.std.specs.Option.{option_copied};
ghost use Rattle.mj_mail.specs.declared.entry.Entry.{Entry};
ghost use Rattle.mj_lawful.specs.Entries.{accepted, epochs, files, in_force, plan_behind};
ghost use Rattle.mj_lawful.specs.Lawful.{has_file, is_change};

use mj_fields::Bytes;
use mj_mail::Entry;

/// How many configurations have begun, which is the number of the one in force.
pub fn count_epochs(entries: &[Entry]) -> usize
    ensures { result ≡ epochs entries.now }
{
    let mut count = 0;
    for entry in entries {
        count += begun_by(entry);
    }
    count
}

fn begun_by(entry: &Entry) -> usize
    ensures count { (rest : List Entry) → epochs (entry.now ∷ rest) ≡ result + epochs rest }
    ensures small { result ≤ 1 }
{
    match entry {
        Entry::Setup { .. } => 1,
        Entry::Accept { .. } | Entry::Done { .. } => 0,
    }
}

/// How many mails were accepted.
pub fn count_accepted(entries: &[Entry]) -> usize
    ensures { result ≡ length (accepted entries.now) }
{
    let mut count = 0;
    for entry in entries {
        count += accepted_by(entry);
    }
    count
}

fn accepted_by(entry: &Entry) -> usize
    ensures count { (rest : List Entry) → length (accepted (entry.now ∷ rest)) ≡ result + length (accepted rest) }
    ensures small { result ≤ 1 }
{
    match entry {
        Entry::Accept { .. } => 1,
        Entry::Setup { .. } | Entry::Done { .. } => 0,
    }
}

/// Whether a mail of the file of this name was accepted.
pub fn has_file(entries: &[Entry], file: &[u8]) -> bool
    ensures { result ≡ has_file (files entries.now) file.now }
{
    for entry in entries {
        if is_of_file(entry, file) {
            return true;
        }
    }
    false
}

fn is_of_file(entry: &Entry, file: &[u8]) -> bool
    ensures { (rest : List Entry) → has_file (files (entry.now ∷ rest)) file.now ≡ (result || has_file (files rest) file.now) }
{
    match entry {
        Entry::Accept { file: other, .. } => other.as_slice() == file,
        Entry::Setup { .. } | Entry::Done { .. } => false,
    }
}

/// Whether these are other bytes than those in force.
pub fn is_change(entries: &[Entry], plan: &[u8]) -> bool
    ensures { result ≡ is_change (in_force entries.now) plan.now }
{
    match find_in_force(entries) {
        Some(held) => held.as_slice() != plan,
        None => true,
    }
}

/// The bytes of the configuration in force.
fn find_in_force(entries: &[Entry]) -> Option<&Bytes>
    ensures { option_copied result ≡ in_force entries.now }
{
    let mut plan: Option<&Bytes> = None;
    for entry in entries {
        plan = plan_after(plan, entry);
    }
    plan
}

/// The bytes in force behind the entry, where these were in force before it.
fn plan_after<'a>(plan: Option<&'a Bytes>, entry: &'a Entry) -> Option<&'a Bytes>
    ensures { (rest : List Entry) → plan_behind (option_copied plan.entry) (entry.now ∷ rest) ≡ plan_behind (option_copied result) rest }
{
    match entry {
        Entry::Setup { plan } => Some(plan),
        Entry::Accept { .. } | Entry::Done { .. } => plan,
    }
}
