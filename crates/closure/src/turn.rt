// What one turn of a derivation comes to: a rule has fired, none is left that may, or a barred fact would be derived.
#[derive(Clone, Copy)]
pub enum Turn {
    Fired,
    Done,
    Stopped,
}
