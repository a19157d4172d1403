ghost use Rattle.std.specs.Prelude.{◌≡◌};
ghost use Rattle.stab_frames.specs.Parameters.{fault_of};
ghost use Rattle.stab_c.specs.Meaning.{check_code};

use stab_frames::{Params, ParamsFault};

/// The parameters are lawful.
const LAWFUL: u8 = 0;

/// The capacity is 0 or over 64.
const CAPACITY_OUT_OF_RANGE: u8 = 1;

/// There are fewer labels than twice the capacity plus two.
const LABELS_TOO_FEW: u8 = 2;

/// There are more than 1000 labels.
const LABELS_TOO_MANY: u8 = 3;

/// What a link is set up with, as C sees it: any two numbers, which each call checks that uses
/// them.
#[repr(C)]
#[derive(Clone, Copy)]
pub struct LinkParams {
    /// How many messages the line holds each way, 1 to 64.
    pub capacity: u16,
    /// How many labels the sender counts through.
    pub labels: u16,
}

/// One message of a sender, as C sees it.
#[repr(C)]
#[derive(Clone, Copy)]
pub struct LineFrame {
    /// What the publisher sent.
    pub item: u32,
    /// The sender's label.
    pub label: u16,
    /// 0 in a frame that the library writes; it is never read.
    pub unused: u16,
}

/// Checks the parameters of a link, and returns 0 if they are lawful, else the number of the first
/// check that fails.
#[unsafe(no_mangle)]
pub extern "C" fn rignolda_params_check(params: &LinkParams) -> u8
    ensures { result ≡ check_code (fault_of params.now.capacity params.now.labels) }
{
    match Params::new(params.capacity, params.labels) {
        Ok(_) => LAWFUL,
        Err(ParamsFault::CapacityOutOfRange) => CAPACITY_OUT_OF_RANGE,
        Err(ParamsFault::LabelsTooFew) => LABELS_TOO_FEW,
        Err(ParamsFault::LabelsTooMany) => LABELS_TOO_MANY,
    }
}
