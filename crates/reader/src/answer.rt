// What `accept` answers of an accepted file: how many facts, rules, exception rules and constraint facts it has.
#[derive(Clone, Copy)]
pub struct AcceptedFile {
    pub facts: u16,
    pub rules: u16,
    pub exceptions: u16,
    pub constraints: u16,
}

// The counts of an accepted file: its facts, rules, exception rules, and the facts that are read and a constraint of some rule, withheld or not.
#[derive(Clone, Copy)]
pub struct FileCounts {
    pub facts: u16,
    pub rules: u16,
    pub exceptions: u16,
    pub constrained: u16,
}
