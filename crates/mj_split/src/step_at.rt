use mj_plan::{Plan, Step};

/// A step, and where it stands.
#[derive(Clone, Copy)]
pub struct StepAt<'a> {
    pub plan: &'a Plan,
    /// The name of its processor.
    pub name: &'a [u8],
    /// Its number there, from 1.
    pub number: u64,
    pub step: &'a Step,
}
