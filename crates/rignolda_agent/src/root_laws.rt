//! Laws over runs of a root. Each is a function with an empty body; its contract is the law.

ghost use Rattle.std.specs.Prelude.{◌≡◌, ◌≢◌, ℕ, suc, ◌+◌, ◌*◌, ◌^◌, ◌<◌, ◌≤◌, ◌⊎◌, max, true};
ghost use Rattle.std.specs.Prelude.{false, List, [], length, Option, Some, None};
ghost use Rattle.std.specs.List.{AllByRecursion};
ghost use Rattle.rignolda_agent.specs.Numbers.{is_newer};
ghost use Rattle.rignolda_agent.specs.Publishers.{Publisher, begun, most_changes, most_harmless};
ghost use Rattle.rignolda_agent.specs.Publishers.{is_in_a_round, publisher_of, round_of};
ghost use Rattle.rignolda_agent.specs.Runs.{Call, FollowEachOther, IsRound, LetGoOn, Root};
ghost use Rattle.rignolda_agent.specs.Runs.{after_call, body, numbers, still_waits, until_over};
ghost use Rattle.rignolda_agent.specs.Merging.{Act, AgreesBesideWaiting, EachWaits, Settings};
ghost use Rattle.rignolda_agent.specs.Merging.{after_acts};
ghost use Rattle.rignolda_agent.specs.Merging as merging;
ghost use Rattle.rignolda_agent.specs.Waiting.{Body, Change, Waiting, after_all_came, applied};
ghost use Rattle.rignolda_agent.specs.Waiting.{left_out, merged};
ghost use Rattle.rignolda_agent.specs.Waiting as waiting;
ghost use Rattle.stab_settings.specs.Tables.{Table};
ghost use Rattle.rignolda_agent.specs.declared.publisher.Next.TheVariants.{Nothing, Changes, Whole};
ghost use Rattle.rignolda_agent.specs.declared.publisher.Publisher.{Publisher as Struct};

/// Numbers rise by exactly one each while no agent says a newer number; after the highest comes 1.
pub fn numbers_rise_by_one()
    ensures { (root : Root) (calls : List Call)
        → FollowEachOther root.publisher.number (numbers root calls) }
{}

/// What is asked of the clock where no agent says a number: if a root begins at a number that is
/// not below the one of an earlier life's begin and as many more as that one published, its numbers
/// are above all of those.
pub fn numbers_rise_over_restarts()
    ensures { (root later : Root) (calls more : List Call)
        → root.publisher.number + length calls ≤ later.publisher.number
        → later.publisher.number + length more < 2 ^ 64
        → AllByRecursion (λ number. number ≤ later.publisher.number) (numbers root calls)
        × AllByRecursion (λ number. later.publisher.number < number) (numbers later more) }
{}

/// A round with so many harmless bodies ends while no agent says a newer number: whatever changes
/// come and whatever the limit is, exactly these and then the whole table are published, and others
/// between them, at most three for each. Nothing may hold it, and no shorter one may be asked for.
pub fn a_round_ends()
    ensures { (root : Root) (harmless : ℕ) (calls : List Call)
        → root.publisher.left ≡ suc harmless → harmless ≤ most_harmless
        → LetGoOn harmless calls → 4 * harmless + 2 ≤ length calls
        → IsRound harmless (until_over root calls)
        × (length (until_over root calls) ≤ 4 * harmless + 2) }
{}

/// Whatever a root remembers, no round is longer than the longest that can be asked for, and once
/// one is asked for, the one under way is no longer. Where none was, it is as long as was asked.
pub fn no_state_has_a_longer_round()
    ensures longest { (state : Struct) → (publisher_of state).left ≤ round_of most_harmless }
    ensures asked { (publisher : Publisher) (harmless : ℕ)
        → (0 < (begun publisher harmless).left)
        × ((begun publisher harmless).left ≤ harmless + 1) }
    ensures begins { (publisher : Publisher) (harmless : ℕ)
        → is_in_a_round publisher ≡ false
        → (begun publisher harmless).left ≡ round_of harmless }
{}

/// While tables are held, none is published, and nothing of a round.
pub fn what_is_held_is_not_published()
    ensures { (root : Root) (call : Call) → call.held ≡ true
        → (body root call ≡ Nothing) ⊎ (body root call ≡ Changes) }
{}

/// After a whole table nothing of before it waits.
pub fn after_a_table_nothing_waits()
    ensures { (root : Root) (call : Call) → body root call ≡ Whole
        → (after_call root call).changes ≡ 0 }
{}

/// Every change is published: one that has fewer than `k` bodies of changes before it, by the body
/// number `2 * k`, whatever comes after it, held or not, in a round or not, while no agent says a
/// newer number.
pub fn every_change_is_published()
    ensures { (root : Root) (place k : ℕ) (calls : List Call)
        → place < root.changes → place < most_changes * k → 2 * k ≤ length calls
        → still_waits root place calls ≡ false }
{}

/// No more bodies follow a table than may, but while it is held.
pub fn few_bodies_follow_a_table()
    ensures { (root : Root) (call : Call) → call.held ≡ false → body root call ≢ Nothing
        → (after_call root call).publisher.items ≤ max call.limit 1 }
{}

/// What does not wait is told: a table that was told every body is the root's, beside each key that
/// does not wait, if it was so before.
pub fn what_does_not_wait_is_told()
    ensures { (root : Settings) (table : Table) (acts : List Act)
        → EachWaits root acts → AgreesBesideWaiting root table
        → AgreesBesideWaiting (after_acts root acts) (merging.told_all root table acts) }
{}

/// A whole table tells all, whatever an agent's table was before.
pub fn a_whole_table_tells_all()
    ensures { (root : Settings) (table : Table)
        → AgreesBesideWaiting (record root { waiting = [] }) (merging.told root table Whole) }
{}

/// To apply what waits, merged, is to be told every body in its order.
pub fn merged_changes_tell_the_same()
    ensures { (waits : Waiting) (bodies : List Body) (table : Table) (key : ℕ)
        → applied (after_all_came waits bodies) table key
        ≡ waiting.told_all (applied waits table) bodies key }
{}

/// The change that came last gives a key its value. One that a whole table leaves out keeps what
/// waits beside it, and is unset where nothing does.
pub fn the_last_change_is_kept()
    ensures came { (waits : Option Change) (came : Change)
        → (merged waits came).value ≡ came.value }
    ensures kept { (waits : Change) (first last : ℕ) → left_out (Some waits) first last ≡ waits }
    ensures unset { (first last : ℕ) → (left_out None first last).value ≡ None }
{}

/// No number is forgotten: beside a key waits the number of the first change that is not applied,
/// which is that of what waited or of what came, and newer than neither.
pub fn merged_changes_keep_the_first_number()
    ensures either { (waits came : Change)
        → let first = (merged (Some waits) came).first in
        (first ≡ waits.first) ⊎ (first ≡ came.first) }
    ensures oldest { (waits came : Change) → waits.first < 2 ^ 64 → came.first < 2 ^ 64
        → (is_newer waits.first (merged (Some waits) came).first ≡ false)
        × (is_newer came.first (merged (Some waits) came).first ≡ false) }
{}
