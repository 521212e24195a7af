/// What a player plans at an entry: to stop and take what is promised, or to play a strategy in the entry's state and
/// then go on by the plan of the entry that follows. After the entry's own strategy there is one plan for each outcome
/// of the lottery, and after a deviation one, for the punishing entry.
#[derive(Drop)]
pub enum DevPlan {
    Stop,
    Play { strategy: u32, plans: Vec<DevPlan> },
}
