//! The decision of an agent: whether it takes the way that a candidate says.

/// The cost of who has no parent. Less than this is a way to a root.
pub const NONE: u16 = 128;

/// Who would cost so much lies on a circle, or too deep.
pub const CIRCLE: u16 = 256;

/// How many names a way has at most, with that of the agent.
pub const NAMES: usize = 128;

/// What an agent knows when a candidate says its way. Any of it may be wrong.
#[derive(Clone, Copy, Debug, PartialEq, Eq)]
pub struct Asked {
    /// What the way costs that the candidate says.
    pub said: u16,
    /// What it costs to come to that candidate.
    pub price: u16,
    /// How many names that way has.
    pub names: usize,
    /// Whether the agent's own name is one of them.
    pub has_own_name: bool,
    /// What the way costs that the agent says itself.
    pub own: u16,
    /// Whether the agent has a parent.
    pub has_parent: bool,
    /// Whether that candidate is the parent.
    pub is_parent: bool,
    /// Whether the agent has no other candidate.
    pub is_sole: bool,
    /// Whether others may have the agent as their parent.
    pub has_children: bool,
    /// Whether the agent has left a circle, and has had no root since.
    pub was_in_circle: bool,
    /// Whether the name at the head of that way is smaller than the agent's.
    pub head_is_smaller: bool,
}

/// Why a candidate is not taken, or a parent is left.
#[derive(Clone, Copy, Debug, PartialEq, Eq)]
pub enum Reason {
    /// The way over it has the agent's own name.
    Circle,
    /// The way over it costs too much, or has too many names.
    LongWay,
    /// It has lost the root.
    NoRoot,
    /// It is not better than what there is.
    NoBetter,
}

/// What an agent does.
#[derive(Clone, Copy, Debug, PartialEq, Eq)]
pub enum Answer {
    /// The candidate is the parent from now on, or as before, and the way that it says is heard.
    Takes,
    /// All stays as it is.
    Keeps(Reason),
    /// There is no parent any more.
    Leaves(Reason),
}

impl Asked {
    ghost use Rattle.std.specs.Prelude.{◌≡◌};
    ghost use Rattle.rignolda_ways.specs.Answers as answers;

    /// What the way over the candidate costs.
    pub fn over(self) -> u16
        ensures { result ≡ answers.over NONE self.said self.price }
    {
        self.said.saturating_add(self.price).min(CIRCLE)
    }

    /// Why that way is none for the agent, if so.
    pub fn fault(self) -> Option<Reason>
        ensures { result ≡ answers.fault_of NONE self }
    {
        if self.has_own_name {
            Some(Reason::Circle)
        } else if self.over() < CIRCLE && self.names < NAMES {
            None
        } else {
            Some(Reason::LongWay)
        }
    }

    /// Whether the agent may take a candidate that has no root.
    pub fn is_free(self) -> bool
        ensures { result ≡ answers.is_free self }
    {
        let may = !self.was_in_circle || self.head_is_smaller;
        !self.has_parent && (self.is_sole || !self.has_children) && may
    }

    /// What the agent does, where that way has no fault and the candidate is no parent.
    fn compared(self) -> Answer
        ensures { result ≡ answers.compared NONE self }
    {
        if self.is_free() {
            Answer::Takes
        } else if self.over() >= NONE {
            Answer::Keeps(Reason::NoRoot)
        } else if self.over() < self.own {
            Answer::Takes
        } else {
            Answer::Keeps(Reason::NoBetter)
        }
    }

    /// What the agent does.
    pub fn answer(self) -> Answer
        ensures { result ≡ answers.answer_of NONE self }
    {
        match (self.is_parent, self.fault()) {
            (true, None) => Answer::Takes,
            (true, Some(why)) => Answer::Leaves(why),
            (false, None) => self.compared(),
            (false, Some(why)) => Answer::Keeps(why),
        }
    }

    /// Why the candidate may not take the place of a parent that is to be left, if so.
    pub fn unfit(self) -> Option<Reason>
        ensures { result ≡ answers.unfit NONE self }
    {
        match self.fault() {
            Some(why) => Some(why),
            None if self.over() >= NONE => Some(Reason::NoRoot),
            None => None,
        }
    }
}
