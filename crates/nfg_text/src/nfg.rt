use game_model::List;
use pay_frac::Frac;
use token_text::Text;

/// The strategies of each player, as the file gives them.
#[derive(Drop)]
pub enum Strategies {
    /// How many each player has.
    Counts(List<u32>),
    /// Their names.
    Names(List<List<Text>>),
}

/// A game in strategic form, as a file gives it (Gambit's strategic form, version 1).
#[derive(Drop)]
pub struct Nfg {
    pub title: Text,
    pub players: List<Text>,
    pub strategies: Strategies,
    pub comment: Option<Text>,
    /// One for each player and profile: profile by profile with the first player's strategy fastest, and
    /// in each all players in order.
    pub payoffs: List<Frac>,
}
