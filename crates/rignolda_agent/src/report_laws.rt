//! Laws of reports: what agents say of their numbers, and how the root comes to be above these.
//! Each is a function with an empty body; its contract is the law.

ghost use Rattle.std.specs.Prelude.{◌≡◌, ◌<◌, ◌≤◌, ◌++◌, ◌∷◌, [], ℕ, List, Option, map, true};
ghost use Rattle.std.specs.List.{AllByRecursion, count_by};
ghost use Rattle.rignolda_agent.specs.Agents.{Agent, happens_all};
ghost use Rattle.rignolda_agent.specs.BodySpelling.{Body};
ghost use Rattle.rignolda_agent.specs.Items.{Reading, SaysBehind, hears_items};
ghost use Rattle.rignolda_agent.specs.Numbers.{circle};
ghost use Rattle.rignolda_agent.specs.Publishers.{Publisher, gone_above};
ghost use Rattle.rignolda_agent.specs.Reports.{AreAllNear, AreNumbered, NeitherFalls, NoneAhead};
ghost use Rattle.rignolda_agent.specs.Reports.{Publication, all_heard, bodies_of, covers};
ghost use Rattle.rignolda_agent.specs.Reports.{goes_above, reported};
ghost use Rattle.rignolda_agent.specs.Rounds.{AllNear, IsNear, IsReady, is_behind, place};
ghost use Rattle.rignolda_agent.specs.Takers.{Taker};

/// No number that an agent heard is ahead of it: whatever it remembers and whatever comes, its two
/// numbers never fall, and the first is behind no number that came, if all are within half of the
/// circle. When the process starts again the first is forgotten; but where it was not ahead of the
/// floor, as after such a start, no number that came is ahead of the floor from then on.
pub fn no_number_that_was_heard_is_ahead()
    ensures heard { (low : ℕ) (reading : Reading) (agent : Agent) (items : List ℕ)
        → low < circle → IsNear low agent.taker.number → IsNear low agent.taker.floor
        → AllNear low (map reading items)
        → let end = (hears_items reading agent items).taker in
        NeitherFalls low agent.taker end × NoneAhead low end.number (map reading items) }
    ensures started { (low : ℕ) (agent : Agent) (history : List (Option Body))
        → low < circle → IsNear low agent.taker.number → IsNear low agent.taker.floor
        → AllNear low history → place low agent.taker.number ≤ place low agent.taker.floor
        → let end = (happens_all agent history).taker in
        (place low agent.taker.floor ≤ place low end.floor)
        × (place low end.number ≤ place low end.floor) × NoneAhead low end.floor history }
{}

/// What an agent reports is behind neither of its numbers, and behind nothing that agents below it
/// report. So one report, as it is handed on, speaks for all of them. Of an agent that took nothing
/// since it started nothing is said: it has no number to count from.
pub fn reports_speak_for_all_below()
    ensures { (low : ℕ) (taker : Taker) (below : List ℕ)
        → low < circle → IsNear low taker.number → 0 < taker.number → IsNear low taker.floor
        → AllByRecursion (IsNear low) below
        → let number = reported taker below in
        IsNear low number × (covers low taker number ≡ true)
        × AllByRecursion (λ n. place low n ≤ place low number) below }
{}

/// A table is above what was heard before a report. Let an agent have heard some items, whatever it
/// remembered before, and let the root hear two reports that cover its numbers of then, beside any
/// others, and publish whatever it likes. Then its next table is ahead of these items, of what the
/// agent had before them, and of all that the root published since. Two reports are needed, since
/// it goes by a quarter of all numbers at once.
pub fn a_table_is_above_what_was_heard_before_a_report()
    ensures goes { (root : Publisher) (number : ℕ)
        → (gone_above root number).number ≡ goes_above root.number number }
    ensures above { (low from : ℕ) (reading : Reading) (agent : Agent) (items : List ℕ)
        (before : List Publication) (table : Publication)
        → low < circle → IsNear low agent.taker.number → IsNear low agent.taker.floor
        → AllNear low (map reading items)
        → IsNear low from → 0 < from → AreAllNear low (before ++ table ∷ [])
        → AreNumbered from (before ++ table ∷ [])
        → let reporter = (hears_items reading agent items).taker in
        2 ≤ count_by (covers low reporter) (all_heard (before ++ table ∷ []))
        → IsReady table.body.number agent.taker
        × AllByRecursion (SaysBehind reading table.body.number) items
        × AllByRecursion (λ b. is_behind table.body.number b.number ≡ true) (bodies_of before) }
{}
