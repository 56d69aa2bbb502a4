use items::item::RuleId;

// The rule that a look along the order took, with the number of steps by then.
#[derive(Clone, Copy)]
pub struct Stage {
    pub rule: RuleId,
    pub steps: usize,
}
