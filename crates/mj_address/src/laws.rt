//! Laws of how addresses are spelled. The functions do nothing: their clauses are the laws.
ghost use Rattle.std.specs.Prelude.{◌≡◌, ℕ, List};
ghost use Rattle.mj_address.specs.Grammar.{IsDomain, IsAddress};
ghost use Rattle.mj_address.specs.Reading.{address_of, domain_of, spelled};

/// Each address and each domain, as it is spelled, is read as itself.
pub fn spelled_is_read()
    ensures address { (address : List ℕ × List ℕ) → IsAddress address → address_of (spelled address) ≡ Ok address }
    ensures domain { (domain : List ℕ) → IsDomain domain → domain_of domain ≡ Ok domain }
{}

/// What is read is an address or a domain, and was spelled so.
pub fn read_is_spelled()
    ensures address { (text : List ℕ) (address : List ℕ × List ℕ) → address_of text ≡ Ok address → IsAddress address }
    ensures address_text { (text : List ℕ) (address : List ℕ × List ℕ) → address_of text ≡ Ok address → text ≡ spelled address }
    ensures domain { (text domain : List ℕ) → domain_of text ≡ Ok domain → IsDomain domain }
    ensures domain_text { (text domain : List ℕ) → domain_of text ≡ Ok domain → text ≡ domain }
{}
