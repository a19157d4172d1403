//! Laws of the room that a whole table has. Each is a function with an empty body; its contract is
//! the law.

ghost use Rattle.std.specs.Prelude.{◌≡◌, ◌+◌, ◌<◌, ◌≤◌, ◌^◌, [], ◌++◌, ℕ, List, length, true};
ghost use Rattle.std.specs.List.{flat_map};
ghost use Rattle.rignolda_agent.specs.declared.body.Kind.TheVariants.{Table};
ghost use Rattle.rignolda_agent.specs.BodySpelling.{Body, FollowEachOther, IsBody, Setting};
ghost use Rattle.rignolda_agent.specs.BodySpelling.{entry_bytes};
ghost use Rattle.rignolda_agent.specs.Publishers.{highest};
ghost use Rattle.rignolda_agent.specs.Rooms.{changed, fits, room_of, table_of};

/// Settings that fit are one whole table, and no others are: so whoever keeps none that do not fit
/// can always publish all that it has, or make its table anew.
pub fn what_fits_is_a_table()
    ensures fits { (number : ℕ) (settings : List Setting)
        → number < 2 ^ 64 → FollowEachOther Table [] settings
        → fits (room_of settings) ≡ true → IsBody (table_of number settings) }
    ensures no_others { (number : ℕ) (settings : List Setting)
        → IsBody (table_of number settings) → fits (room_of settings) ≡ true }
{}

/// Counts follow the settings: once a setting is set, set anew or unset, they are those of the
/// settings that there are then. At each place there is one setting at most.
pub fn counts_follow_the_settings()
    ensures { (before had has after : List Setting)
        → length had ≤ 1 → length has ≤ 1
        → let is = room_of (before ++ (had ++ after)) in
        is.settings + length has ≤ highest
        → is.bytes + length (flat_map entry_bytes has) ≤ highest
        → changed is (length (flat_map entry_bytes had)) (length (flat_map entry_bytes has))
        ≡ room_of (before ++ (has ++ after)) }
{}
