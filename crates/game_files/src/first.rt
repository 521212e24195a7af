use dyn_text::Dyn;
use nfg_text::Nfg;

/// What a first file says.
#[derive(Drop)]
pub enum First {
    /// A stage game that is repeated.
    Stage(Nfg),
    /// The transitions of a dynamic game.
    Transitions(Dyn),
}
