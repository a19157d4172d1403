//! Laws over lists of bodies and numbers. Each is a function with an empty body; its contract is
//! the law.

ghost use Rattle.std.specs.Prelude.{◌≡◌, ◌-◌, ◌<◌, ◌≤◌, [], ◌∷◌, ◌++◌, ℕ, List, Option, Some};
ghost use Rattle.std.specs.Prelude.{length, map, take, true, false};
ghost use Rattle.std.specs.List.{AllByRecursion};
ghost use Rattle.stab_settings.specs.Refreshes.{reached};
ghost use Rattle.stab_treecore.specs.TreeLaw.{CompleteLaw, HalfTreeLawAt, TreeLaw};
ghost use Rattle.rignolda_agent.specs.declared.body.Kind.{Kind};
ghost use Rattle.rignolda_agent.specs.declared.body.Kind.TheVariants.{Table};
ghost use Rattle.rignolda_agent.specs.BodySpelling.{Body};
ghost use Rattle.rignolda_agent.specs.Agents.{Agent, LacksNothing, Settings, WaitsWell, applied};
ghost use Rattle.rignolda_agent.specs.Agents.{applied_by, happens, happens_all, hears_all};
ghost use Rattle.rignolda_agent.specs.Agents.{tell_all, with_body};
ghost use Rattle.rignolda_agent.specs.Items.{Reading, SaysBehind, hears_items};
ghost use Rattle.rignolda_agent.specs.Numbers.{ahead, circle, furthest, is_newer, next, quarter};
ghost use Rattle.rignolda_agent.specs.Publishers.{Publisher, gone_above};
ghost use Rattle.rignolda_agent.specs.Rounds.{AllNear, IsNear, IsReady, IsRound, IsRun, IsWithin};
ghost use Rattle.rignolda_agent.specs.Rounds.{NeverFall};
ghost use Rattle.rignolda_agent.specs.Rounds.{is_behind, last_number};
ghost use Rattle.rignolda_agent.specs.Takers.{Taker, after, fills, is_table, looks, takes};

/// Nothing older is applied after what is newer: whatever an agent remembers, whatever bodies come
/// and however often its process starts again, the numbers that its files come to never fall, if
/// the number of its files is right and the numbers that come are within half of the circle. By
/// what is not applied, no file changes.
pub fn nothing_older_is_applied()
    ensures never { (low : ℕ) (agent : Agent) (history : List (Option Body))
        → low < circle → IsNear low agent.taker.floor → AllNear low history
        → NeverFall low agent.taker.floor (applied agent history) }
    ensures files { (agent : Agent) (it : Option Body)
        → applied_by agent it ≡ [] → (happens agent it).files ≡ agent.files }
{}

/// What is applied at once lacks nothing: whatever happens, what waits goes from each number to the
/// next one, or to a whole table. So with the last of it files have what the root had with that
/// one, wherever these bodies say anything.
pub fn what_waits_lacks_nothing()
    ensures stays { (agent : Agent) (history : List (Option Body))
        → WaitsWell agent → WaitsWell (happens_all agent history) }
    ensures applied { (agent : Agent) (body : Body)
        → WaitsWell agent → LacksNothing (with_body agent body) }
{}

/// A newer table makes the files right: whatever an agent remembers, if its numbers are behind that
/// of a table, then after the table and what came since its files have what these bodies tell.
pub fn a_newer_table_makes_the_files_right()
    ensures { (agent : Agent) (bodies later : List Body) (table : Body) (before : Settings)
        → IsRound bodies table later → IsReady table.number agent.taker
        → (hears_all agent bodies).files ≡ tell_all before (table ∷ later) }
{}

/// An agent that starts again comes back: whatever it remembered, once it has heard a whole table
/// and all that follows it up to a number that is not behind that of its files, these are what the
/// bodies tell.
pub fn an_agent_that_starts_again_comes_back()
    ensures { (agent : Agent) (table : Body) (later : List Body) (before : Settings)
        → table.kind ≡ Table → takes agent.taker table.number ≡ true → IsRun table.number later
        → is_newer (last_number table.number later) agent.taker.floor ≡ false
        → (hears_all agent (table ∷ later)).files ≡ tell_all before (table ∷ later) }
{}

/// Two rounds bring the root's settings: where no published item is missing but for the first ones,
/// and a round was published after these, an agent's files are the root's settings, whatever it
/// remembered, whatever strays came first, and whatever settings the root had before. The numbers
/// that were there before the round, those of the agent, of strays and of what was published
/// before, have to be behind that of the round's table: the root goes on above what agents tell it.
pub fn two_rounds_bring_the_roots_settings()
    ensures { (reading : Reading) (most_strays most_missing : ℕ)
        (garbage published received : List ℕ) (bodies first round later : List Body) (table : Body)
        (agent : Agent) (at_root : Settings)
        → CompleteLaw most_strays most_missing garbage published received
        → map reading published ≡ map Some bodies
        → bodies ≡ first ++ round → IsRound round table later → most_missing ≤ length first
        → IsReady table.number agent.taker
        → AllByRecursion (SaysBehind reading table.number) garbage
        → AllByRecursion (λ b. is_behind table.number b.number ≡ true) first
        → (hears_items reading agent received).files ≡ tell_all at_root bodies }
{}

/// The same at any moment, before all has arrived: an agent whose last item was published in a
/// round's table or after it has the settings that the root had when it published that item.
pub fn two_rounds_bring_the_settings_of_the_last_item()
    ensures { (reading : Reading) (most_strays most_missing : ℕ)
        (garbage published received : List ℕ)
        → TreeLaw most_strays most_missing garbage published received
        → (places : List ℕ) × HalfTreeLawAt most_strays garbage published received places
        × ((bodies first round later : List Body) (table : Body) (agent : Agent)
        (at_root : Settings)
        → map reading (take (reached places) published) ≡ map Some bodies
        → bodies ≡ first ++ round → IsRound round table later → most_missing ≤ length first
        → IsReady table.number agent.taker
        → AllByRecursion (SaysBehind reading table.number) garbage
        → AllByRecursion (λ b. is_behind table.number b.number ≡ true) first
        → (hears_items reading agent received).files ≡ tell_all at_root bodies) }
{}

/// What is left out is made up for: nothing counts as whole until the next whole table that is
/// taken, and with that one all files are looked at.
pub fn what_is_left_out_is_made_up_for()
    ensures stays { (t : Taker) (kind : Kind) (number : ℕ)
        → t.whole ≡ false → is_table kind ≡ false → (after t kind number).whole ≡ false }
    ensures ends { (t : Taker) (number : ℕ) → t.whole ≡ false → takes t number ≡ true
        → (fills t number ≡ true) × (looks t number ≡ true)
        × ((after t Table number).whole ≡ true) }
{}

/// The root goes on above what it heard: the number after the furthest of those that agents have is
/// ahead of its own and of all of them, if these are within a little less than half of the circle.
pub fn the_root_goes_on_above_what_it_heard()
    ensures { (low from : ℕ) (heard : List ℕ)
        → low < circle → AllByRecursion (IsWithin low) (from ∷ heard)
        → AllByRecursion (λ n. is_behind (next (furthest from heard)) n ≡ true) (from ∷ heard) }
{}

/// The root goes on above what it heard: a table that ends a run of numbers above the furthest of
/// these is ahead of all of them, and of the run before it, if all are within a little less than
/// half of the circle. It is ahead of no number, too.
pub fn a_table_is_ahead_of_what_was_heard()
    ensures heard { (low from : ℕ) (heard : List ℕ) (before : List Body) (table : Body)
        → low < circle → AllByRecursion (IsWithin low) (from ∷ heard)
        → AllByRecursion (λ b. IsWithin low b.number) (before ++ table ∷ [])
        → IsRun (furthest from heard) (before ++ table ∷ [])
        → AllByRecursion (λ n. is_behind table.number n ≡ true) (from ∷ heard)
        × AllByRecursion (λ b. is_behind table.number b.number ≡ true) before }
    ensures none { (number : ℕ) → 0 < number → is_behind number 0 ≡ true }
{}

/// The root goes on by a quarter of all numbers at once. So whoever has its last number, or one
/// that is behind that by less than a quarter but three, takes the table that comes then; and with
/// the second such table the root is above the number that was ahead.
pub fn whoever_is_near_takes_the_next_table()
    ensures takes { (root : Publisher) (number agent : ℕ)
        → 0 < root.number → root.number < circle → number < circle → 0 < agent → agent < circle
        → ahead agent root.number < quarter - 3
        → is_newer agent (next (gone_above root number).number) ≡ true }
    ensures twice { (root : Publisher) (number : ℕ)
        → 0 < root.number → root.number < circle → number < circle
        → is_newer root.number number ≡ true
        → (gone_above (gone_above root number) number).number ≡ number }
{}
