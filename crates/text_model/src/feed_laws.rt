//! Laws of a feed of printed terms, as contracts of functions that do nothing.
ghost use Rattle.std.specs.Prelude.{◌≡◌, ◌≢◌, ℕ, Result, Err, Bool, true, List, [], ◌++◌, map};
ghost use Rattle.dets_term.specs.TermValue.{TermValue};
ghost use Rattle.feed_model.specs.Meaning.{Behind};
ghost use Rattle.feed_model.specs.Feed.{empty_feed, IsNext};
ghost use Rattle.feed_model.specs.Stream.{IsStream};
ghost use Rattle.feed_model.specs.History.{Call, IsHistory, fed_bytes, answered_terms, is_finished, EndsBy};
ghost use Rattle.feed_model.specs.declared.fed.Fed.{Fed};
ghost use Rattle.text_model.specs.Script.{Rest, Placed, IsScript};
ghost use Rattle.text_model.specs.TextFeed.{TextFeed, texts, behind_of};
ghost use Rattle.text_model.specs.declared.fault.TextFault.{TextFault};
ghost use Rattle.text_model.specs.declared.fault.TextFault.TheVariants.{Memory as OutOfMemory};

/// A feed has one answer and one state behind it, want of memory aside.
pub fn a_feed_has_one_answer()
    ensures { (s a b : TextFeed) (r q : Result Fed TextFault) → IsNext texts s a r → IsNext texts s b q → r ≢ Err OutOfMemory
        → q ≢ Err OutOfMemory → (r ≡ q) × (a ≡ b) }
{}

/// A stream gives one list of terms, and one thing stands behind them, whether its input is finished or goes on.
pub fn a_stream_gives_one_list_of_terms()
    ensures { (finished : Bool) (start : ℕ) (bytes : List ℕ) (ts us : List TermValue) (x y : Behind TextFault)
        → IsStream texts finished start bytes ts x → IsStream texts finished start bytes us y → (ts ≡ us) × (x ≡ y) }
{}

/// Each stream gives some list of terms, and something stands behind them.
pub fn each_stream_gives_some_terms_and_an_answer()
    ensures { (finished : Bool) (start : ℕ) (bytes : List ℕ) → (ts : List TermValue) × (behind : Behind TextFault)
        × IsStream texts finished start bytes ts behind }
{}

/// A stream gives the terms of its script, and what stands behind them is the script's rest.
pub fn a_stream_gives_the_terms_of_its_script()
    ensures { (finished : Bool) (start : ℕ) (bytes : List ℕ) (placed : List Placed) (rest : Rest) → IsScript finished bytes placed rest
        → IsStream texts finished start bytes (map (λ p. p.term) placed) (behind_of finished start rest) }
{}

/// The terms that a feed has given are the first of its stream, whatever else it answered, as that it waits for more bytes, and
/// whatever follows those that were fed; nothing does once the end of input was said.
pub fn the_terms_of_a_feed_are_the_first_of_its_stream()
    ensures { (calls : List (Call TextFault)) (rest : List ℕ) (ts : List TermValue) (behind : Behind TextFault)
        → IsHistory texts empty_feed calls → (is_finished calls ≡ true → rest ≡ [])
        → IsStream texts true 0 (fed_bytes calls ++ rest) ts behind → (more : List TermValue) × (ts ≡ answered_terms calls ++ more) }
{}

/// The terms of a stream do not depend on how it was cut: where a feed came to its last answer, its terms and this answer are what
/// the stream gives. What was not fed by then may be any bytes, but none once the end of input was said. So two feeds of one stream
/// have the same terms and the same last answer.
pub fn the_terms_of_a_stream_do_not_depend_on_how_it_was_cut()
    ensures given { (calls : List (Call TextFault)) (behind : Behind TextFault) (rest : List ℕ) → IsHistory texts empty_feed calls
        → EndsBy texts calls behind → (is_finished calls ≡ true → rest ≡ [])
        → IsStream texts true 0 (fed_bytes calls ++ rest) (answered_terms calls) behind }
    ensures same { (calls others : List (Call TextFault)) (behind other : Behind TextFault) (rest more : List ℕ)
        → IsHistory texts empty_feed calls → EndsBy texts calls behind → (is_finished calls ≡ true → rest ≡ [])
        → IsHistory texts empty_feed others → EndsBy texts others other → (is_finished others ≡ true → more ≡ [])
        → fed_bytes calls ++ rest ≡ fed_bytes others ++ more → (answered_terms calls ≡ answered_terms others) × (behind ≡ other) }
{}
