//! Laws of agents that choose parents by what they learn late. Each is a function with an empty
//! body; its contract is the law.

ghost use Rattle.std.specs.Prelude.{◌≡◌, ℕ, suc, ◌+◌, ◌≤◌, ◌<◌, ◌++◌, false, List, [], ◌∷◌, length};
ghost use Rattle.rignolda_ways.specs.Answers.{answer_of};
ghost use Rattle.rignolda_ways.specs.Nets.{AreNames, Candidate, IsAt, IsDistance, IsFar, IsNet};
ghost use Rattle.rignolda_ways.specs.Nets.{Net};
ghost use Rattle.rignolda_ways.specs.Turns.{Heard, Said, State, Turn, after_answer, after_turn};
ghost use Rattle.rignolda_ways.specs.Turns.{HavePlaces, asked, price_at, says};
ghost use Rattle.rignolda_ways.specs.Runs.{IsOnShortest, IsRun, Round, after_rounds, after_run};
ghost use Rattle.rignolda_ways.specs.Rings.{IsRing, Stays};
ghost use Rattle.rignolda_ways.specs.Runs.{parent_place};

use crate::NONE;

/// From any state, whatever was said before: where no root is nearer than a cost, nobody says less
/// than that cost once there were so many rounds but one, whatever turns follow. So a nearness that
/// was false is gone; and whoever has no path to a root says at least the bound.
pub fn no_false_nearness_stays()
    ensures said { (net : Net) (before : List Said) (start : State) (rounds : List Round)
        (further : List Turn) (v far : ℕ)
        → IsNet net → IsRun net before start rounds further → v < net.agents
        → IsFar net far v → far ≤ net.none → far ≤ suc (length rounds)
        → far ≤ (says net (after_run net start rounds further) v).cost }
    // Nor has anybody heard less of its parent.
    ensures heard { (net : Net) (before : List Said) (start : State) (rounds : List Round)
        (further : List Turn) (v far : ℕ) (heard : Heard) (c : Candidate)
        → IsNet net → IsRun net before start rounds further → v < net.agents
        → net.is_root v ≡ false → after_run net start rounds further v ≡ Some heard
        → IsAt net v heard.place c → IsFar net far c.agent → far ≤ net.none
        → far ≤ length rounds → far ≤ heard.way.cost }
{}

/// After more rounds than its distance, if that is below the bound, an agent says this distance,
/// and its parent is the next one on a shortest path, then and for ever, whatever turns follow.
pub fn parents_come_from_any_state()
    ensures { (net : Net) (before : List Said) (start : State) (rounds : List Round)
        (further : List Turn) (v distance : ℕ)
        → IsNet net → IsRun net before start rounds further → v < net.agents
        → IsDistance net v distance → distance < net.none → distance < length rounds
        → ((says net (after_run net start rounds further) v).cost ≡ distance)
        × (net.is_root v ≡ false
        → IsOnShortest net (after_run net start rounds further) v distance) }
{}

/// From then on it keeps that parent.
pub fn parents_are_kept()
    ensures { (net : Net) (before : List Said) (start : State) (rounds more : List Round)
        (further : List Turn) (v distance : ℕ)
        → IsNet net → IsRun net before start (rounds ++ more) further → v < net.agents
        → net.is_root v ≡ false
        → IsDistance net v distance → distance < net.none → distance < length rounds
        → parent_place (after_run net start (rounds ++ more) further v)
        ≡ parent_place (after_rounds net start rounds v) }
{}

/// Names end circles: after more rounds than there are agents each way that an agent says is one of
/// the net, whether it leads to a root or not. Each name is that of an agent which the next may
/// have as its parent, none comes twice, and the first one said that it had no parent.
pub fn said_ways_are_real()
    ensures { (net : Net) (before : List Said) (start : State) (rounds : List Round)
        (further : List Turn) (v : ℕ)
        → IsNet net → HavePlaces net start → IsRun net before start rounds further
        → v < net.agents → net.agents < length rounds
        → (hops : ℕ) × AreNames net hops v (says net (after_run net start rounds further) v).names }
{}

/// No ring of parents lasts: from any state, whatever was said before, none stays through as many
/// rounds as it has agents.
pub fn no_ring_of_parents_stays()
    ensures short { (net : Net) (before : List Said) (start : State) (rounds : List Round)
        (further : List Turn) (ring : ℕ → ℕ) (steps : ℕ)
        → IsRun net before start rounds further → Stays net (IsRing net ring steps) start rounds
        → steps ≤ length rounds → ⊥ }
    // Nor in as many rounds as there are agents.
    ensures any { (net : Net) (before : List Said) (start : State) (rounds : List Round)
        (further : List Turn) (ring : ℕ → ℕ) (steps : ℕ)
        → IsRun net before start rounds further → Stays net (IsRing net ring steps) start rounds
        → net.agents ≤ length rounds → ⊥ }
{}

/// As many rounds as its distance may leave an agent wrong, at any distance below the bound of the
/// code.
pub fn as_many_rounds_are_not_enough()
    ensures { (distance : ℕ) → 1 ≤ distance → distance < NONE
        → (net : Net) × (start : State) × (rounds : List Round)
        × (net.none ≡ NONE) × IsNet net × IsRun net [] start rounds []
        × (length rounds ≡ distance) × (distance < net.agents) × IsDistance net distance distance
        × ((says net (after_rounds net start rounds) distance).cost ≡ NONE + distance) }
{}

/// In its turn an agent does what [`Asked::answer`](crate::Asked::answer) says, if the bound is
/// that of the code; and nobody else changes.
pub fn a_turn_is_an_answer()
    ensures own { (net : Net) (s : State) (turn : Turn) → net.none ≡ NONE
        → after_turn net s turn turn.agent
        ≡ after_answer (answer_of NONE (asked net s turn))
        (record { place = turn.place; way = turn.way }) (s turn.agent) }
    ensures others { (net : Net) (s : State) (turn : Turn) (v : ℕ) → (v ≡ turn.agent → ⊥)
        → after_turn net s turn v ≡ s v }
{}

/// Who has a parent need not ask a candidate that costs by itself as much as the agent says:
/// whatever that one says, nothing would change.
pub fn who_is_dear_need_not_be_asked()
    ensures { (net : Net) (s : State) (turn : Turn) (heard : Heard)
        → s turn.agent ≡ Some heard → (heard.place ≡ turn.place → ⊥)
        → (says net s turn.agent).cost ≤ price_at net turn.agent turn.place
        → after_turn net s turn turn.agent ≡ s turn.agent }
{}
