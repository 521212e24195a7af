use crate::lottery::Lottery;
use game_model::List;
use pay_frac::Frac;

/// An entry as a text has it: the parts of its point are fractions, one for each player.
#[derive(Drop)]
pub struct Written {
    pub point: List<Frac>,
    /// The strategies that are played, one for each player.
    pub profile: List<u32>,
    pub lottery: Lottery,
    /// The numbers of the punishing entries.
    pub punish: List<u32>,
}
