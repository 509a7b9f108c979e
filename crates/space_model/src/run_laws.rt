//! Laws of runs, as contracts of functions that do nothing.
ghost use Rattle.std.specs.Prelude.{◌≡◌, ◌≤◌, ◌<◌, ℕ, ◌+◌, ◌^◌, List, Some, None, true, false};
ghost use Rattle.space_model.specs.Least.{log2};
ghost use Rattle.space_model.specs.Runs.{Run, run, end_of, is_free, is_maximal, front_of_smallest};
ghost use Rattle.space_model.specs.Apart.{In, SameMembers, Apart, IsRun, InSegment, IsPlace};

/// A place is the front of a maximal free run of at least its size: of the smallest, and of these of the lowest.
#[tactic(auto, using(crate::proofs::Places::place_is))]
pub fn a_place_is_in_the_smallest_and_lowest_run()
    ensures { (largest units : ℕ) (held : List Run) (exp unit : ℕ) → front_of_smallest largest units held exp ≡ Some unit
        → IsPlace largest units held exp unit }
{}

/// A place is aligned, lies in the units and meets no held run, so it is a free run.
#[tactic(auto, using(crate::proofs::Places::place_is_run, crate::proofs::Places::place_is_apart, crate::proofs::Places::place_is_free))]
pub fn a_place_is_a_free_run()
    ensures is_run { (largest units : ℕ) (held : List Run) (exp unit : ℕ) → front_of_smallest largest units held exp ≡ Some unit
        → IsRun largest units (run unit exp) }
    ensures apart { (largest units : ℕ) (held : List Run) (exp unit : ℕ) (q : Run) → front_of_smallest largest units held exp ≡ Some unit
        → In q held → Apart (run unit exp) q }
    ensures free { (largest units : ℕ) (held : List Run) (exp unit : ℕ) → front_of_smallest largest units held exp ≡ Some unit
        → is_free units held (run unit exp) ≡ true }
{}

/// There is no place only where no run of this size or a larger one is free.
#[tactic(auto, using(crate::proofs::Places::no_place))]
pub fn without_a_place_no_run_is_free()
    ensures { (largest units : ℕ) (held : List Run) (exp : ℕ) (r : Run) → front_of_smallest largest units held exp ≡ None → exp ≤ r.exp
        → IsRun largest units r → is_free units held r ≡ false }
{}

/// No larger run that has a maximal one inside is free.
#[tactic(auto, using(crate::proofs::FreeRuns::larger_not_free))]
pub fn a_maximal_run_lies_in_no_larger_free_run()
    ensures { (largest units : ℕ) (held : List Run) (r q : Run) → is_maximal largest units held r ≡ true → IsRun largest units q → r.exp < q.exp
        → q.unit ≤ r.unit → end_of r ≤ end_of q → is_free units held q ≡ false }
{}

/// A place depends on which runs are held, and not on their order.
#[tactic(auto, using(crate::proofs::Reordered::place_same))]
pub fn a_place_depends_on_the_held_runs_alone()
    ensures { (largest units : ℕ) (xs ys : List Run) (exp : ℕ) → SameMembers xs ys
        → front_of_smallest largest units xs exp ≡ front_of_smallest largest units ys exp }
{}

/// The power of two with that exponent is at most the number, and the next one is greater.
#[tactic(auto, using(crate::proofs::Minima::log2_below, crate::proofs::Minima::log2_above, crate::proofs::Minima::log2_power))]
pub fn the_exponent_of_the_greatest_power_of_two()
    ensures at_most { (n : ℕ) → 1 ≤ n → 2 ^ log2 n ≤ n }
    ensures greatest { (n : ℕ) → n < 2 ^ (log2 n + 1) }
    ensures of_a_power { (e : ℕ) → log2 (2 ^ e) ≡ e }
{}

/// A run lies in one segment, where segments have the units of the largest run.
pub fn a_run_lies_in_one_segment()
    ensures { (largest units : ℕ) (r : Run) → IsRun largest units r → InSegment (2 ^ largest) r }
{}
