ghost use Rattle.std.specs.Prelude.{◌≡◌, ◌≤◌, MatchResult, Some, None};
ghost use Rattle.stab_frames.specs.Parameters.{AreLawful, fault_of, fewest_labels, next};

use crate::frame::Label;
use std::marker::Model;
use thiserror::Error;

/// The most entries that a queue of a link may hold.
const MAX_CAPACITY: u16 = 64;

/// The most labels that a link may count.
const MAX_LABELS: u16 = 1000;

/// Why two numbers are not the parameters of a link, in the order of the checks.
#[derive(Clone, Copy, Debug, PartialEq, Eq, Hash, Error)]
pub enum ParamsFault {
    /// The capacity is 0 or over 64.
    #[error("job: capacity out of range")]
    CapacityOutOfRange,
    /// There are fewer labels than twice the capacity plus two.
    #[error("job: too few labels")]
    LabelsTooFew,
    /// There are more than 1000 labels.
    #[error("job: too many labels")]
    LabelsTooMany,
}

/// The fewest labels of a link of this capacity: one more than a start can hold.
fn fewest_labels(capacity: u16) -> u16
    requires { capacity ≤ MAX_CAPACITY }
    ensures { result ≡ fewest_labels capacity }
{
    2 * capacity + 2
}

/// How many entries each queue of a link may hold, and how many labels its sender counts through.
///
/// A value of this type is always lawful: 1 to 64 entries a queue, and at least twice the capacity
/// plus two, at most 1000 labels.
#[derive(Clone, Copy, Debug, PartialEq, Eq, Hash)]
pub struct Params {
    capacity: u16,
    labels: u16,
}

impl Model for Params {
    ghost use Rattle.stab_frames.specs.Parameters.{Parameters, AreLawful};

    ghost Value = { Parameters };

    ghost view = { λ p. record { capacity = p.capacity; labels = p.labels } };

    ghost invariant = { λ p. AreLawful (record { capacity = p.capacity; labels = p.labels }) };

    ghost inverse = { λ p. record { capacity = p.capacity; labels = p.labels } };
}

impl Params {
    /// The parameters of `capacity` entries a queue and `labels` labels, or the first check that
    /// fails.
    pub fn new(capacity: u16, labels: u16) -> Result<Params, ParamsFault>
        ensures made { MatchResult result
            (λ p. (p.capacity ≡ capacity) × (p.labels ≡ labels) × (fault_of capacity labels ≡ None))
            (λ fault. fault_of capacity labels ≡ Some fault) }
    {
        if capacity < 1 || MAX_CAPACITY < capacity {
            return Err(ParamsFault::CapacityOutOfRange);
        }
        if labels < fewest_labels(capacity) {
            return Err(ParamsFault::LabelsTooFew);
        }
        if MAX_LABELS < labels {
            return Err(ParamsFault::LabelsTooMany);
        }
        Ok(Params { capacity, labels })
    }

    /// How many entries each of the two queues may hold: 1 to 64.
    pub fn capacity(self) -> u16
        ensures capacity { result ≡ self.capacity }
        ensures lawful { AreLawful self }
    {
        self.capacity
    }

    /// How many labels there are: at most 1000.
    pub fn labels(self) -> u16
        ensures labels { result ≡ self.labels }
        ensures lawful { AreLawful self }
    {
        self.labels
    }

    /// The label after `label`, which may be any `u16`.
    pub fn next(self, label: Label) -> Label
        ensures { result ≡ next self label }
    {
        if label < self.labels - 1 {
            label + 1
        } else {
            0
        }
    }
}
