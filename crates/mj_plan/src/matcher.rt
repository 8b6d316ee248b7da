use crate::Condition;
use mj_fields::Items;

/// A matcher: one condition, or a composite of matchers. For each recipient it holds or not.
#[derive(Debug, Drop)]
pub enum MatchExpr {
    One(Condition),
    /// Every child holds.
    And(Items<MatchExpr>),
    /// Some child holds.
    Or(Items<MatchExpr>),
    /// No child holds.
    Not(Items<MatchExpr>),
    /// Exactly one of the two children holds.
    Xor(Items<MatchExpr>),
}
