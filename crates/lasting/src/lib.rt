// One record of the result: an old one after the update records that name it, or an inserted one after the later ones.
#![tactic(auto)]

pub mod emitting;
pub mod named;
pub mod new;
pub mod old;
pub mod stepping;

// Nothing stays of it; or it names a record that does not stand (11); or it is written, and the next one begins there.
// An enum of its own: a `Result` of an `Option` would nest these three outcomes.
#[derive(Clone, Copy)]
pub enum Step {
    Nothing,
    Loose,
    One(usize),
}
