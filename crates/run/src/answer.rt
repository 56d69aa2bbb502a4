// What a run answers: the counts of its stages and of its steps.
#[derive(Clone, Copy)]
pub struct Ran {
    pub stages: u16,
    pub steps: u16,
}
