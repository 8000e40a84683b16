// What a pass knows of its turn, as the rule sees it.

/// The view of a pass. No value of it is made.
pub struct Known<O> {
    /// The ticket that it has drawn and that was not served to its end.
    pub ticket: Option<u64>,
    /// Its ticket is served.
    pub turn: bool,
    /// It has counted in this turn.
    pub counted: bool,
    /// It has the value in hand.
    pub hand: bool,
    /// A number of commits that the word has reached.
    pub seen: u64,
    /// By how much it raised the word.
    pub made: u64,
    /// A pass without shares is spent.
    pub shares: u64,
    /// Whose the value is; a spent pass names nobody.
    pub owner: Option<O>,
    /// The number of all shares.
    pub all: u64,
    /// The commits of the value that the turn was made with.
    pub opening: u64,
}
