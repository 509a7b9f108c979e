//! Laws of pending states, as contracts of functions that do nothing.
ghost use Rattle.std.specs.Prelude.{◌≡◌, ◌≤◌, ℕ, ◌+◌, ◌-◌, ◌^◌, ◌||◌, nat_le, min, cond, false, true, List, [], ◌∷◌, ◌++◌, length, sum_by, bytes_eq};
ghost use Rattle.std.specs.Prelude.{Option, Some, None, is_some, slice_get, option_and_then};
ghost use Rattle.dets_term.specs.TermValue.{TermValue};
ghost use Rattle.space_model.specs.Sizes.{head_size};
ghost use Rattle.space_model.specs.Apart.{Pairs};
ghost use Rattle.space_model.specs.Ledger.{Ledger, Pending as LedgerPending, block_bytes, is_pending, packed_of, with_pending, is_at_limit};
ghost use Rattle.space_model.specs.LedgerOrder.{OtherPending, pending_keys};
ghost use Rattle.file_model.specs.declared.block.Packed.{Packed};
ghost use Rattle.file_model.specs.Packing.{payload_of, IsBlockOf};
ghost use Rattle.write_cache.specs.declared.pending.Pending.{Pending};
ghost use Rattle.write_cache.specs.PendingState.{block_length, old_length, payload_at, in_ledger, HasHead};
ghost use Rattle.write_cache.specs.Waiting.{Waiting, keys_of, states_of, state_of, with_state, bytes_of, ledger_of, HasDistinctKeys, HaveHeads};

/// A key that gets a state has it, and the others keep theirs. Keys stay in the order of first touch, each once.
pub fn a_key_keeps_its_place_and_has_its_last_state()
    ensures last { (w : Waiting) (key : List ℕ) (s : Pending) → state_of (with_state w key s) key ≡ Some s }
    ensures others { (w : Waiting) (key other : List ℕ) (s : Pending) → bytes_eq key other ≡ false → state_of (with_state w key s) other ≡ state_of w other }
    ensures order { (w : Waiting) (key : List ℕ) (s : Pending)
        → keys_of (with_state w key s) ≡ cond (is_some (state_of w key)) (keys_of w) (keys_of w ++ key ∷ []) }
    ensures distinct { (w : Waiting) (key : List ℕ) (s : Pending) → HasDistinctKeys w → HasDistinctKeys (with_state w key s) }
{}

/// What stands at a place is a key with its state, and each key with a state stands at a place.
pub fn each_place_has_a_key_with_its_state()
    ensures at { (w : Waiting) (place : ℕ) (key : List ℕ) (s : Pending) → HasDistinctKeys w → slice_get (keys_of w) place ≡ Some key
        → slice_get (states_of w) place ≡ Some s → state_of w key ≡ Some s }
    ensures found { (w : Waiting) (key : List ℕ) (s : Pending) → state_of w key ≡ Some s
        → (place : ℕ) × (slice_get (keys_of w) place ≡ Some key) × (slice_get (states_of w) place ≡ Some s) }
{}

/// Where a key gets a state, the bytes of its new block come to the others, and those of its old one go.
pub fn a_new_block_comes_and_the_old_one_goes()
    ensures none { bytes_of [] ≡ 0 }
    ensures put { (w : Waiting) (key : List ℕ) (s : Pending) → bytes_of (with_state w key s) + old_length (state_of w key) ≡ bytes_of w + block_length s }
{}

/// The ledger's pending list goes along with the cache: the same keys in the same order, with the payloads and runs of their
/// blocks.
pub fn the_ledger_goes_along()
    ensures none { ledger_of [] ≡ [] }
    ensures put { (w : Waiting) (key : List ℕ) (s : Pending) → ledger_of (with_state w key s) ≡ with_pending (ledger_of w) (in_ledger key s) }
    ensures keys { (w : Waiting) → pending_keys (ledger_of w) ≡ keys_of w }
    ensures apart { (w : Waiting) → HasDistinctKeys w → Pairs OtherPending (ledger_of w) }
    ensures there { (w : Waiting) (key : List ℕ) → is_pending (ledger_of w) key ≡ is_some (state_of w key) }
    ensures block { (w : Waiting) (key : List ℕ) → packed_of (ledger_of w) key ≡ option_and_then (λ s. (in_ledger key s).packed) (state_of w key) }
{}

/// The number of keys and the bytes of their blocks tell whether the ledger has reached its limit.
pub fn keys_and_bytes_tell_the_limit()
    ensures bytes { (w : Waiting) → HaveHeads w → sum_by (λ (p : LedgerPending). block_bytes p.packed) (ledger_of w) ≡ bytes_of w }
    ensures limit { (w : Waiting) (l : Ledger) → HaveHeads w → l.pending ≡ ledger_of w
        → is_at_limit l ≡ (nat_le 4096 (length w) || nat_le 1048576 (min (bytes_of w) (2 ^ 64 - 1))) }
{}

/// Blocks begin with a whole head, as those that writers make of objects do.
pub fn blocks_have_heads()
    ensures none { HaveHeads [] }
    ensures put { (w : Waiting) (key : List ℕ) (s : Pending) → HaveHeads w → HasHead s → HaveHeads (with_state w key s) }
    ensures made { (objects : List TermValue) (p : Packed) (s : Pending) → IsBlockOf objects p → s.block ≡ Some p → HasHead s }
    ensures payload { (objects : List TermValue) (p : Packed) (unit : ℕ) → IsBlockOf objects p → (payload_at unit p).bytes ≡ length (payload_of objects) }
{}
