ghost use Rattle.std.specs.Prelude.{◌≡◌};
ghost use Rattle.rignolda_ways.specs.Answers.{answer_of, over, unfit};
ghost use Rattle.rignolda_settings_c.specs.Ways.{answer_code, asked_of, reason_code};
ghost use Rattle.rignolda_settings_c.specs.Ways.{reason_or_none};

use rignolda_ways::{Answer, Asked, NONE, Reason};

/// What an agent knows when a candidate says its way. A flag is true at any value but 0.
#[repr(C)]
#[derive(Clone, Copy)]
pub struct WayAsked {
    /// How many names that way has.
    pub names: usize,
    /// What that way costs.
    pub said: u16,
    /// What it costs to come to that candidate.
    pub price: u16,
    /// What the way costs that the agent says itself.
    pub own: u16,
    /// Whether the agent's own name is on that way.
    pub has_own_name: u8,
    /// Whether the agent has a parent.
    pub has_parent: u8,
    /// Whether that candidate is the parent.
    pub is_parent: u8,
    /// Whether the agent has no other candidate.
    pub is_sole: u8,
    /// Whether others may have the agent as their parent.
    pub has_children: u8,
    /// Whether the agent has left a circle, and has had no root since.
    pub was_in_circle: u8,
    /// Whether the name at the head of that way is smaller than the agent's.
    pub head_is_smaller: u8,
}

fn asked(it: &WayAsked) -> Asked
    ensures { result ≡ asked_of it.now }
{
    Asked {
        said: it.said,
        price: it.price,
        names: it.names,
        has_own_name: it.has_own_name != 0,
        own: it.own,
        has_parent: it.has_parent != 0,
        is_parent: it.is_parent != 0,
        is_sole: it.is_sole != 0,
        has_children: it.has_children != 0,
        was_in_circle: it.was_in_circle != 0,
        head_is_smaller: it.head_is_smaller != 0,
    }
}

fn code(why: Reason) -> u8
    ensures { result ≡ reason_code why }
{
    match why {
        Reason::Circle => 1,
        Reason::LongWay => 2,
        Reason::NoRoot => 3,
        Reason::NoBetter => 4,
    }
}

/// What the way over a candidate costs that says so much and has this price.
#[unsafe(no_mangle)]
pub extern "C" fn rignolda_way_over(said: u16, price: u16) -> u16
    ensures { result ≡ over NONE said price }
{
    let it = Asked {
        said,
        price,
        names: 0,
        has_own_name: false,
        own: 0,
        has_parent: false,
        is_parent: false,
        is_sole: false,
        has_children: false,
        was_in_circle: false,
        head_is_smaller: false,
    };
    it.over()
}

/// What an agent does when a candidate says its way: 0 if it takes it. Else all stays as it is,
/// since the way leads over itself (1), is too long (2), has no root (3) or is not better (4); or
/// its parent is left, since its way leads over the agent itself (5) or is too long (6).
#[unsafe(no_mangle)]
pub extern "C" fn rignolda_way_answer(it: &WayAsked) -> u8
    ensures { result ≡ answer_code (answer_of NONE (asked_of it.now)) }
{
    match asked(it).answer() {
        Answer::Takes => 0,
        Answer::Keeps(why) => code(why),
        Answer::Leaves(why) => code(why) + 4,
    }
}

/// Why the candidate may not take the place of a parent that is to be left, by the same numbers, or
/// 0 if it may.
#[unsafe(no_mangle)]
pub extern "C" fn rignolda_way_unfit(it: &WayAsked) -> u8
    ensures { result ≡ reason_or_none (unfit NONE (asked_of it.now)) }
{
    match asked(it).unfit() {
        None => 0,
        Some(why) => code(why),
    }
}
