use crate::file_name::FileName;
use game_model::List;
use token_text::Text;

/// A state of a transition file.
#[derive(Drop)]
pub struct DynState {
    pub name: Text,
    /// The file of its stage game.
    pub file: FileName,
    /// The state that follows each profile, in profile order, counted from 0.
    pub next: List<u32>,
}

/// A transition file.
#[derive(Drop)]
pub struct Dyn {
    pub title: Text,
    /// 1 to 64 of them.
    pub states: List<DynState>,
}
