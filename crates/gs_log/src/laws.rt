// Laws of the log's bytes and of the folder that it is in.
ghost use Rattle.std.specs.Prelude.{◌≡◌, ℕ, List};
ghost use Rattle.gs_disk.specs.Folder.{Folder};
ghost use Rattle.gs_log.specs.Names.{log_name, mark_name};
ghost use Rattle.gs_log.specs.Grammar.{IsLog, BreaksAt};
ghost use Rattle.gs_log.specs.Holding.{Holds};

/// Bytes are a log with one list, or no log at one place.
pub fn one_list()
    ensures list { (a b : List (List ℕ)) → (bytes : List ℕ) → IsLog a bytes → IsLog b bytes
        → a ≡ b }
    ensures no_log { (list : List (List ℕ)) → (bytes : List ℕ) → (at : ℕ) → IsLog list bytes
        → BreaksAt bytes at → ⊥ }
    ensures place { (bytes : List ℕ) → (at and_at : ℕ) → BreaksAt bytes at → BreaksAt bytes and_at
        → at ≡ and_at }
{}

/// A folder holds one list, which stays where the mark and the log stay.
pub fn one_list_held()
    ensures one { (a b : List (List ℕ)) → (folder : Folder) → Holds a folder → Holds b folder
        → a ≡ b }
    ensures stays { (list : List (List ℕ)) → (old new : Folder) → new mark_name ≡ old mark_name
        → new log_name ≡ old log_name → Holds list old → Holds list new }
{}
