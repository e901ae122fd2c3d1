//! A law is a function that computes nothing: a caller calls it, and its proof then knows the clauses.
ghost use Rattle.std.specs.Prelude.{◌≡◌, ℕ, List, map};
ghost use Rattle.first_few.specs.First.{IsFront};
ghost use Rattle.sorted_front.specs.Front.{TellsApart, TiesShow, front};

/// The first of all when these are sorted are given by a function of the list, where what ties is the same.
pub fn front_is_told<T: Ord>()
    ensures there { (k : ℕ) (all : List T) → IsFront T.cmp k all (front T.cmp k all) }
    ensures only { (k : ℕ) (all shown : List T) → TellsApart T.cmp all → IsFront T.cmp k all shown → shown ≡ front T.cmp k all }
{}

/// Where what ties isn't the same, what it shows is given so, as far as ties show the same.
pub fn front_shows<T: Ord, U>()
    ensures { (shows : T → U) (k : ℕ) (all shown : List T) → TiesShow T.cmp shows all → IsFront T.cmp k all shown → map shows shown ≡ map shows (front T.cmp k all) }
{}
