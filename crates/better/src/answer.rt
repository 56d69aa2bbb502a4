// Which of two orders is the better.
#[derive(Clone, Copy)]
pub enum Choice {
    First,
    Second,
}
