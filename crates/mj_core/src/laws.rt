//! Laws of what configurations mean. The functions do nothing: their clauses are the laws.
ghost use Rattle.std.specs.Prelude.{◌≡◌, ℕ, List, [], ◌∷◌};
ghost use Rattle.std.specs.List.{list_all};
ghost use Rattle.mj_mail.specs.declared.entry.Entry.{Entry};
ghost use Rattle.mj_mail.specs.declared.mail.NewMail.{NewMail};
ghost use Rattle.mj_mail.specs.Meaning.{meaning as meaning_by};
ghost use Rattle.mj_mail.specs.Rules.{step_by};
ghost use Rattle.mj_lawful.specs.Entries.{pending};
ghost use Rattle.mj_lawful.specs.Lawful.{AreLawful, meaning};
ghost use Rattle.mj_core.specs.declared.epoch.Epoch.{Epoch};
ghost use Rattle.mj_core.specs.Epochs.{meanings};

use crate::Epoch;
use mj_fields::Items;
use mj_mail::Stages;

/// Where there is one configuration, mails mean by any entries what they mean by its rules.
pub fn one_configuration_means_as_its_rules<R: Stages>(epoch: &Epoch<R>)
    ensures { (entries : List Entry) (mails : List (ℕ × NewMail)) →
        meaning (meanings R.Rules R.is_allowed (epoch.now ∷ [])) entries mails
        ≡ meaning_by (R.first_of epoch.now.rules) R.measure (step_by R.is_sound R.reply_of R.outcome_of epoch.now.rules) mails }
{}

/// A configuration's rules allow the pending mails of lawful entries exactly where these are sound for it.
pub fn pending_mails_are_allowed_where_sound<R: Stages>(epochs: &Items<Epoch<R>>)
    ensures { (entries : List Entry) (number : ℕ) → let r = meanings R.Rules R.is_allowed epochs.now in
        AreLawful r entries → list_all (r.allows number) (pending r entries) ≡ list_all (r.sound number) (pending r entries) }
{}
