//! The two sides of a mask.
ghost use Rattle.std.specs.Prelude.{◌≡◌, ◌≤◌, List, ◌∷◌, [], ◌++◌, ℕ, Bool, length, IfOk, OnOk};
ghost use Rattle.std.specs.List.{count_by};
ghost use Rattle.mj_address.specs.Masks.{taken, left};

use crate::address::Address;
use std::alloc::{AllocError, Global};

/// The addresses that a mask takes, and those that it leaves.
#[derive(Drop)]
pub struct Sides {
    pub taken: Vec<Address>,
    pub left: Vec<Address>,
}

impl Sides {
    // Two empty sides, with room for what the mask takes and leaves.
    fn new(alloc: Global, mask: &[bool]) -> Result<Sides, AllocError>
        ensures taken { IfOk result (λ sides. sides.taken.items ≡ []) }
        ensures left { IfOk result (λ sides. sides.left.items ≡ []) }
    {
        let count = count_taken(mask);
        let taken = Vec::with_capacity(alloc, count)?;
        let left = Vec::with_capacity(alloc, mask.len() - count)?;
        Ok(Sides { taken, left })
    }

    // Puts the next address on its side.
    fn put(&mut self, is_taken: bool, address: Address) -> Result<(), AllocError>
        ensures taken { OnOk result ((others : List Bool) (rest : List (List ℕ × List ℕ)) → self.new.taken.items ++ taken others rest ≡ self.old.taken.items ++ taken (is_taken ∷ others) (address ∷ rest)) }
        ensures left { OnOk result ((others : List Bool) (rest : List (List ℕ × List ℕ)) → self.new.left.items ++ left others rest ≡ self.old.left.items ++ left (is_taken ∷ others) (address ∷ rest)) }
    {
        if is_taken {
            self.taken.push(address)?;
        } else {
            self.left.push(address)?;
        }
        Ok(())
    }
}

// How many places of the mask are true.
fn count_taken(mask: &[bool]) -> usize
    ensures count { result ≡ count_by (λ is_taken. is_taken) mask.now }
    ensures bound { result ≤ length mask.now }
{
    let mut count = 0;
    for is_taken in mask {
        if *is_taken {
            count += 1;
        }
    }
    count
}

/// The addresses at whose place the mask is true, and the others, moved and in order.
pub fn sift(alloc: Global, mask: &[bool], list: Vec<Address>) -> Result<Sides, AllocError>
    requires { length mask.now ≡ length list.items }
    ensures taken { IfOk result (λ sides. sides.taken.items ≡ taken mask.now list.items) }
    ensures left { IfOk result (λ sides. sides.left.items ≡ left mask.now list.items) }
{
    let mut sides = Sides::new(alloc, mask)?;
    for (is_taken, address) in mask.iter().zip(list) {
        sides.put(*is_taken, address)?;
    }
    Ok(sides)
}
