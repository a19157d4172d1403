//! Laws of the marker of a folder. Each is a function with an empty body; its contract is the law.

ghost use Rattle.std.specs.Prelude.{◌≡◌, ◌<◌, ◌≤◌, ℕ, List, None};
ghost use Rattle.rignolda_agent.specs.Markers.{Act, AllMarkNear, Folder, come_to, does_all};
ghost use Rattle.rignolda_agent.specs.Numbers.{circle};
ghost use Rattle.rignolda_agent.specs.Rounds.{IsNear, NeverFall, place};

/// Files never go back: whatever the processes remember that keep them, and between whichever acts
/// they are ended, the numbers that the files come to never fall, and the marker is never behind
/// them. Once, the marker has to be right, and nobody to be about to put a file.
pub fn files_never_go_back()
    ensures never { (low : ℕ) (folder : Folder) (acts : List Act)
        → low < circle → IsNear low folder.marker → folder.marked ≡ None
        → place low folder.files ≤ place low folder.marker → AllMarkNear low acts
        → NeverFall low folder.files (come_to folder acts) }
    ensures marker { (low : ℕ) (folder : Folder) (acts : List Act)
        → low < circle → IsNear low folder.marker → folder.marked ≡ None
        → place low folder.files ≤ place low folder.marker → AllMarkNear low acts
        → let end = does_all folder acts in
        IsNear low end.marker × (place low end.files ≤ place low end.marker) }
{}
