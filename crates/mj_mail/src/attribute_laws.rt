//! Laws of changes of attributes. The functions do nothing: their clauses are the laws.
ghost use Rattle.std.specs.Prelude.{◌≡◌, ◌≢◌, ◌≤◌, ℕ, List, length, Some, None};
ghost use Rattle.mj_mail.specs.Attributes.{AreAttributes, attribute_value, with_attribute, without_attribute};

use crate::MAX_ATTRIBUTES;

/// A change keeps the order of the names, and their number within the limit where it is asked for.
pub fn changed_attributes_keep_their_form()
    ensures set { (attributes : List (List ℕ × List ℕ)) (name value : List ℕ) → AreAttributes attributes → length (with_attribute name value attributes) ≤ MAX_ATTRIBUTES → AreAttributes (with_attribute name value attributes) }
    ensures removed { (attributes : List (List ℕ × List ℕ)) (name : List ℕ) → AreAttributes attributes → AreAttributes (without_attribute name attributes) }
{}

/// A name that was set has the new value, one that was removed has none, and every other name keeps its own.
pub fn changed_attributes_keep_other_values()
    ensures set { (attributes : List (List ℕ × List ℕ)) (name value : List ℕ) → attribute_value name (with_attribute name value attributes) ≡ Some value }
    ensures set_others { (attributes : List (List ℕ × List ℕ)) (name value other : List ℕ) → other ≢ name → attribute_value other (with_attribute name value attributes) ≡ attribute_value other attributes }
    ensures removed { (attributes : List (List ℕ × List ℕ)) (name : List ℕ) → attribute_value name (without_attribute name attributes) ≡ None }
    ensures removed_others { (attributes : List (List ℕ × List ℕ)) (name other : List ℕ) → other ≢ name → attribute_value other (without_attribute name attributes) ≡ attribute_value other attributes }
{}
