// Worked cases of what is refused and of what a good node says.
ghost use Rattle.lock_files.specs.Cases as cases;

/// Path entries, entries, track files and locks, each beside what is refused of it or what it says.
pub fn worked_cases()
    ensures path_entry { cases.PathEntryCases }
    ensures refused_path_entry { cases.RefusedPathEntryCases }
    ensures entry { cases.EntryCases }
    ensures refused_entry { cases.RefusedEntryCases }
    ensures track { cases.TrackCases }
    ensures lock { cases.LockCases }
{}
