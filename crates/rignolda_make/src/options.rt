ghost use Rattle.std.specs.Prelude.{◌≡◌, MatchResult, None, Some};
ghost use Rattle.rignolda_make.specs.Options.{labels_of, options_fault, rest_fault};

use stab_frames::{Params, ParamsFault};
use thiserror::Error;

/// The most nodes of a tree.
const MAX_NODES: u16 = 64;

/// The most items that a job may have.
const MAX_ITEMS: u32 = 10_000;

/// The most turns that a job may name.
const MAX_TURNS: u32 = 1_000_000;

/// The largest rate of a drawn script, a number of words in a thousand.
const MAX_RATE: u16 = 1000;

/// The most items of an opening.
const MAX_HOLD: u16 = 64;

/// The most steps that are drawn: the text of more would be longer than a file may be.
const MAX_STEPS: u32 = 500_000;

/// The most labels of a link, and those of the job where none are asked for.
const MAX_LABELS: u16 = 1000;

/// What a random job is drawn by.
#[derive(Clone, Copy, Debug, PartialEq, Eq)]
pub struct DrawOptions {
    /// Where the generator begins.
    pub seed: u64,
    /// How many nodes the tree has.
    pub nodes: u16,
    /// How many items the root publishes.
    pub items: u32,
    /// The greatest capacity of a link.
    pub capacity: u16,
    /// How many labels each link has; drawn for each where it is left out.
    pub labels: Option<u16>,
    /// How many turns each worker of a run has.
    pub turns: u32,
    /// Of a thousand sent messages, how many a script drops.
    pub loss: u16,
    /// Of a thousand received messages, how many a script keeps.
    pub repeat: u16,
    /// How many items an opening has at most.
    pub hold: u16,
    /// How many steps the schedule has; a tree of one node has none.
    pub steps: u32,
}

/// Why no job is drawn by some options, in the order of the checks.
#[derive(Clone, Copy, Debug, PartialEq, Eq, Error)]
pub enum OptionsFault {
    /// The number of nodes is 0 or over 64.
    #[error("a tree has 1 to 64 nodes")]
    NodesOutOfRange,
    /// There are more than 10,000 items.
    #[error("a job has at most 10000 items")]
    TooManyItems,
    /// No link has this capacity and this number of labels.
    #[error("{0}")]
    Params(ParamsFault),
    /// The turns are 0 or over 1,000,000.
    #[error("a run has 1 to 1000000 turns")]
    TurnsOutOfRange,
    /// A rate is over 1000.
    #[error("a rate is at most 1000 in a thousand")]
    RateOutOfRange,
    /// An opening would have more than 64 items.
    #[error("a node begins with at most 64 items")]
    HoldOutOfRange,
    /// There are more than 500,000 steps.
    #[error("at most 500000 steps are drawn")]
    TooManySteps,
}

impl DrawOptions {
    /// The parameters of the links that have none of their own, or the first check that the options
    /// fail.
    pub fn params(&self) -> Result<Params, OptionsFault>
        ensures { MatchResult result
            (λ params. (options_fault self.now ≡ None) × (params.capacity ≡ self.now.capacity)
            × (params.labels ≡ labels_of self.now))
            (λ fault. options_fault self.now ≡ Some fault) }
    {
        if self.nodes < 1 || self.nodes > MAX_NODES {
            return Err(OptionsFault::NodesOutOfRange);
        }
        if self.items > MAX_ITEMS {
            return Err(OptionsFault::TooManyItems);
        }
        match Params::new(self.capacity, self.labels.unwrap_or(MAX_LABELS)) {
            Err(fault) => Err(OptionsFault::Params(fault)),
            Ok(params) => self.check_rest(params),
        }
    }

    /// These parameters, or the first check that the other options fail.
    fn check_rest(&self, params: Params) -> Result<Params, OptionsFault>
        ensures { MatchResult result
            (λ same. (rest_fault self.now ≡ None) × (same ≡ params))
            (λ fault. rest_fault self.now ≡ Some fault) }
    {
        if self.turns < 1 || self.turns > MAX_TURNS {
            return Err(OptionsFault::TurnsOutOfRange);
        }
        if self.loss > MAX_RATE || self.repeat > MAX_RATE {
            return Err(OptionsFault::RateOutOfRange);
        }
        if self.hold > MAX_HOLD {
            return Err(OptionsFault::HoldOutOfRange);
        }
        if self.steps > MAX_STEPS {
            return Err(OptionsFault::TooManySteps);
        }
        Ok(params)
    }
}
